ghost use Rattle.std.specs.Prelude.{
  ◌≡◌,
  ◌+◌,
  ◌<◌,
  ◌≤◌,
  ◌++◌,
  map,
  ◌∷◌,
  [],
  IfOk,
  None,
  Some,
  true,
  length,
  option_copied,
};
ghost use Rattle.build_meaning.specs.declared.event.Event.TheVariants.{Assign};
ghost use Rattle.build_meaning.specs.History.{AreOfNodes};
ghost use Rattle.build_meaning.specs.Meaning.{most_instances};
ghost use Rattle.build_scheduler.specs.Behind.{AreBehind, IsBehind};
ghost use Rattle.build_scheduler.specs.Ends.{IsEnd, IsStop, ShowsStop};
ghost use Rattle.build_scheduler.specs.Instances.{AreCounted, instance_asked};
ghost use Rattle.build_scheduler.specs.Kept.{AreKept};
ghost use Rattle.build_scheduler.specs.Learnt.{AreInOrder};
ghost use Rattle.build_scheduler.specs.Own.{IsOut};
ghost use Rattle.build_scheduler.specs.Position.{begins};
ghost use Rattle.build_scheduler.specs.Ready.{IsSomeReady, IsReady, IsLeastReady};
ghost use Rattle.build_scheduler.specs.Shown.{AreNested, Shown, Indexed, is_ready};
ghost use Rattle.build_scheduler.specs.declared.slot.Slot.TheVariants.{Ready, Assigned};
ghost use Rattle.build_meaning.specs.Lists.{at, put};

use crate::history::History;
use crate::instances::Instances;
use crate::kept::KeptEnds;
use crate::opening::{Opening, alone};
use crate::preferred::Preferred;
use crate::released::Released;
use crate::request_set::RequestSet;
use crate::slot::{End, Origin, Slot};
use crate::{Answer, Walker};
use build_meaning::Event;
use msb_values::NoMemory;
use result_cache::{RequestKey, RunId, Table};
use std::alloc::Global;
use std::mem;

/// The scheduler of a build.
///
/// Requests have numbers, from the root's 0. A walk is here, or with a node that has its request.
/// Each call that changes the core is one event of its history, which is legal; what the core holds
/// shows the state after it. (MSBuild task; Building projects in parallel.)
pub struct Core<W: Walker> {
    pub(crate) world: W::Origin,
    pub(crate) history: History,
    pub(crate) table: Table,
    pub(crate) origins: Vec<Origin>,
    pub(crate) slots: Vec<Slot<W>>,
    /// The run in whose body each request is.
    pub(crate) making: Vec<Option<RunId>>,
    pub(crate) ready: RequestSet,
    /// For each request those that wait for the run that it has begun.
    pub(crate) waiting: Vec<RequestSet>,
    pub(crate) instances: Instances,
    pub(crate) end: Option<End>,
    /// How requests have ended, for others of their keys.
    pub(crate) kept: KeptEnds<W>,
    /// What is not needed any more, until a node takes it.
    pub(crate) released: Released<W>,
    /// In which order nodes take what is ready.
    pub(crate) preferred: Preferred,
    ghost legal: { ∥ Shown W.seen (W.world_of world) history origins.items slots.items making.items
        table end ∥₁ },
    ghost indexed: { ∥ Indexed slots.items ready waiting.items ∥₁ },
    ghost counted: { ∥ AreCounted instances (map instance_asked origins.items) ∥₁ },
    ghost active: { AreOfNodes history.nodes history.events },
    ghost few: { length instances ≤ most_instances },
    ghost nested: { ∥ AreNested origins.items ∥₁ },
    ghost stops: { ∥ ShowsStop (W.world_of world) history.events end ∥₁ },
    ghost kept_so: { ∥ AreKept W.seen (W.world_of world) table.finished origins.items
        kept.instances.items ∥₁ },
    ghost behind: { ∥ AreBehind W.seen (W.world_of world) history.events slots.items ∥₁ },
}

// A drop that is written out is proved here alone.
impl<W: Walker + Drop> Drop for Core<W> {
    fn drop(self) {
        let Core {
            world: _,
            history: _,
            table: _,
            origins: _,
            slots: _,
            making: _,
            ready: _,
            waiting: _,
            instances: _,
            end: _,
            kept: _,
            released: _,
            preferred: _,
        } = self;
    }
}

impl<W: Walker> Core<W> {
    /// The core of a root request, whose walk had no answer yet.
    pub fn new(alloc: Global, root: RequestKey, walk: W) -> Result<Core<W>, NoMemory>
        requires key { root ≡ (W.seen walk).world.root }
        requires begins { (W.seen walk).position ≡ begins (W.seen walk).world root [] }
        requires asked { (W.seen walk).asked ≡ 0 }
        requires learnt { (W.seen walk).learnt ≡ [] }
        ensures world { IfOk result (λ core. W.world_of core.world ≡ (W.seen walk).world) }
        ensures history { IfOk result (λ core. core.history.events ≡ []) }
        ensures table { IfOk result (λ core. core.table.finished ≡ []) }
        ensures end { IfOk result (λ core. core.end ≡ None) }
        ensures nodes { IfOk result (λ core. core.history.nodes ≡ 1) }
    {
        let instances = Instances::of(alloc, &root.instance)?;
        let opening = Opening::new(alloc)?;
        let world = walk.origin();
        let origin = Origin {
            key: root,
            parent: None,
            depth: 0,
        };
        let origins = alone(alloc, origin)?;
        let slots = alone(alloc, Slot::Ready(walk, Answer::First))?;
        let (history, ready, making, waiting) = opening.parts();
        Ok(Core {
            world,
            history,
            table: Table::new(alloc),
            origins,
            slots,
            making,
            ready,
            waiting,
            instances,
            end: None,
            kept: KeptEnds::new(alloc)?,
            released: Released::new(alloc),
            preferred: Preferred::new(alloc),
        })
    }

    /// The least request that is ready.
    pub fn ready(&self) -> Option<u64>
        ensures { IsLeastReady (W.world_of self.now.world) self.now.history.events result }
    {
        self.ready.least()
    }

    /// A request that is ready, if one is: the one that became ready last, or the least, where
    /// those that are left are held back. (Building projects in parallel.)
    pub fn next_ready(&mut self) -> Option<u64>
        ensures world { W.world_of self.new.world ≡ W.world_of self.old.world }
        ensures history { self.new.history.events ≡ self.old.history.events }
        ensures table { self.new.table ≡ self.old.table }
        ensures end { self.new.end ≡ self.old.end }
        ensures nodes { self.new.history.nodes ≡ self.old.history.nodes }
        ensures ready { IsSomeReady (W.world_of self.new.world) self.new.history.events result }
    {
        match self.preferred.next(&self.slots) {
            Some(id) => Some(id),
            None => self.ready.least(),
        }
    }

    /// Hands a ready request to a node: its walk, with its next answer. Where the request is in a
    /// body and no node has retired, the walk has used the tools that the history has of it. This
    /// takes no memory.
    pub fn assign(&mut self, id: u64, node: u32) -> (W, Answer)
        requires running { self.old.end ≡ None }
        requires ready { ∥ IsReady (W.world_of self.old.world) self.old.history.events id ∥₁ }
        ensures world { W.world_of self.new.world ≡ W.world_of self.old.world }
        ensures history { self.new.history.events ≡ self.old.history.events ++ Assign id node ∷ [] }
        ensures table { self.new.table ≡ self.old.table }
        ensures end { self.new.end ≡ self.old.end }
        ensures nodes { self.new.history.nodes ≡ self.old.history.nodes }
        ensures room { self.old.history.room ≡ self.new.history.room + 1 }
        ensures out { ∥ IsOut (W.world_of self.new.world) self.new.history.events
            self.new.table.finished id (W.seen result.0) result.1 ∥₁ }
        ensures behind { ∥ IsBehind (W.world_of self.old.world) self.old.history.events id
            (W.seen result.0).position.place ∥₁ }
    {
        self.ready.remove(id);
        self.history.push(Event::Assign(id, node));
        take_ready(&mut self.slots, id, node)
    }

    /// Ends a build that can't go on. This takes no memory.
    pub fn stop(&mut self, end: End)
        requires running { self.old.end ≡ None }
        requires shown { IsStop (W.world_of self.old.world) self.old.history.events end }
        ensures world { W.world_of self.new.world ≡ W.world_of self.old.world }
        ensures history { self.new.history.events ≡ self.old.history.events }
        ensures table { self.new.table ≡ self.old.table }
        ensures end { self.new.end ≡ Some end }
        ensures nodes { self.new.history.nodes ≡ self.old.history.nodes }
    {
        self.end = Some(end);
    }

    /// Takes what is not needed any more, to drop it where others may have the core. This takes no
    /// memory.
    pub fn take_released(&mut self) -> Released<W>
        ensures world { W.world_of self.new.world ≡ W.world_of self.old.world }
        ensures history { self.new.history ≡ self.old.history }
        ensures table { self.new.table ≡ self.old.table }
        ensures end { self.new.end ≡ self.old.end }
    {
        let alloc = *self.slots.allocator();
        mem::replace(&mut self.released, Released::new(alloc))
    }

    /// How the build has ended, if it has.
    pub fn end(&self) -> Option<&End>
        ensures end { option_copied result ≡ self.now.end }
        ensures told { IsEnd (W.world_of self.now.world) self.now.history.events self.now.end }
    {
        self.end.as_ref()
    }

    /// The events so far. One node at least has not retired.
    pub fn history(&self) -> &[Event]
        ensures events { result.now ≡ self.now.history.events }
        ensures active { AreOfNodes self.now.history.nodes result.now }
    {
        self.history.events()
    }

    /// The runs that are begun, and the records of those that are finished.
    pub fn table(&self) -> &Table
        ensures table { result.now ≡ self.now.table }
        ensures in_order { AreInOrder self.now.table.finished }
    {
        &self.table
    }
}

/// Takes the walk of a ready request and its answer out of its slot, for a node.
fn take_ready<W: Drop>(slots: &mut Vec<Slot<W>>, id: u64, node: u32) -> (W, Answer)
    requires { is_ready (at slots.old.items id) ≡ true }
    ensures was { at slots.old.items id ≡ Some (Ready result.0 result.1) }
    ensures is { slots.new.items ≡ put slots.old.items id (Assigned node) }
{
    replace_slot(slots, id, Slot::Assigned(node)).into_ready()
}

/// Puts this into a slot, and gives what was there.
pub(crate) fn replace_slot<W: Drop>(slots: &mut Vec<Slot<W>>, id: u64, slot: Slot<W>) -> Slot<W>
    requires { id < length slots.old.items }
    ensures was { at slots.old.items id ≡ Some result }
    ensures is { slots.new.items ≡ put slots.old.items id slot }
{
    mem::replace(&mut slots[id as usize], slot)
}

/// Puts this into a slot.
pub(crate) fn put_slot<W: Drop>(slots: &mut Vec<Slot<W>>, id: u64, slot: Slot<W>)
    requires { id < length slots.old.items }
    ensures { slots.new.items ≡ put slots.old.items id slot }
{
    slots[id as usize] = slot;
}
