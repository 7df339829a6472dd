//! Nodes that retire for want of memory.

ghost use Rattle.std.specs.Prelude.{◌≡◌, ◌<◌, ◌≤◌, [], None, Some};
ghost use Rattle.build_meaning.specs.Lists.{at};
ghost use Rattle.build_scheduler.specs.History.{most_nodes};
ghost use Rattle.build_scheduler.specs.Own.{IsOut};
ghost use Rattle.build_scheduler.specs.Retired.{IsRetired};
ghost use Rattle.build_scheduler.specs.Slots.{IsWithNode};
ghost use Rattle.build_scheduler.specs.declared.slot.Slot.TheVariants.{Assigned};

use crate::scheduler::put_slot;
use crate::slot::{End, Slot};
use crate::{Answer, Core, Walker};

impl<W: Walker> Core<W> {
    /// Says how many nodes there are, before the first event. Without it there is one. (Building
    /// projects in parallel.)
    pub fn nodes(&mut self, count: u32)
        requires some { 0 < count }
        requires most { count ≤ most_nodes }
        requires empty { self.old.history.events ≡ [] }
        ensures world { W.world_of self.new.world ≡ W.world_of self.old.world }
        ensures history { self.new.history.events ≡ self.old.history.events }
        ensures table { self.new.table ≡ self.old.table }
        ensures end { self.new.end ≡ self.old.end }
        ensures nodes { self.new.history.nodes ≡ count }
    {
        self.history.set_nodes(count);
    }

    /// Takes a request back from a node that has no memory for it: it is ready again, with this
    /// walk and answer, and the node is active no more. Where no other node is active, the build
    /// ends for want of memory, and the answer is false. This takes no memory.
    pub fn retire(&mut self, id: u64, walk: W, answer: Answer) -> bool
        requires running { self.old.end ≡ None }
        requires out { ∥ IsOut (W.world_of self.old.world) self.old.history.events
            self.old.table.finished id (W.seen walk) answer ∥₁ }
        ensures world { W.world_of self.new.world ≡ W.world_of self.old.world }
        ensures table { self.new.table ≡ self.old.table }
        ensures nodes { self.new.history.nodes ≡ self.old.history.nodes }
        ensures retired { IsRetired (W.world_of self.old.world) self.old.history.nodes
            self.old.history.events self.new.history.events id self.new.end result }
    {
        let node = node_of(&self.slots, id);
        if self.history.retire(id, node) {
            self.ready.insert(id);
            self.preferred.list(id);
            put_slot(&mut self.slots, id, Slot::Ready(walk, answer));
            true
        } else {
            self.end = Some(End::NoMemory);
            false
        }
    }
}

/// The node that has a request.
fn node_of<W: Drop>(slots: &Vec<Slot<W>>, id: u64) -> u32
    requires { IsWithNode (at slots.now.items id) }
    ensures { at slots.now.items id ≡ Some (Assigned result) }
{
    slots[id as usize].node()
}
