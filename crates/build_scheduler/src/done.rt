ghost use Rattle.std.specs.Prelude.{◌≡◌, ◌+◌, ◌-◌, ◌<◌, ◌++◌, ◌∷◌, [], None, Some, false, length};
ghost use Rattle.result_cache.specs.declared.request.RequestResult.{RequestResult as Told};
ghost use Rattle.build_meaning.specs.declared.event.Event.TheVariants.{Done};
ghost use Rattle.build_meaning.specs.Lists.{at, put};
ghost use Rattle.build_scheduler.specs.declared.walker.Ask.TheVariants.{Done as IsOver};
ghost use Rattle.build_scheduler.specs.declared.slot.End.TheVariants.{Root};
ghost use Rattle.build_scheduler.specs.declared.slot.Slot.TheVariants.{Calling, Done as Over};
ghost use Rattle.build_scheduler.specs.Calls.{
  CanTake,
  HasOpen,
  HasParent,
  IsCalling,
  IsPassed,
  IsResumed,
};
ghost use Rattle.build_scheduler.specs.HandedBack.{IsHandedBack, IsLeft};
ghost use Rattle.build_scheduler.specs.Learnt.{AreInOrder};
ghost use Rattle.build_scheduler.specs.Numbers.{among};
ghost use Rattle.build_scheduler.specs.Own.{Asks, IsOwn};
ghost use Rattle.build_scheduler.specs.Position.{ask_of};
ghost use Rattle.build_scheduler.specs.Shown.{is_ready};

use crate::request_set::RequestSet;
use crate::scheduler::{put_slot, replace_slot};
use crate::slot::{Calls, End, Origin, Slot};
use crate::{Core, Walker};
use build_meaning::Event;
use result_cache::{RequestResult, Table};

impl<W: Walker> Core<W> {
    /// Ends a request. The last open call makes its caller ready with all results; with the root
    /// the build ends. The walk of the first call hands its journal to the caller, where there is
    /// memory to take it over; nothing else takes memory. Any other walk is handed back. (MSBuild
    /// task.)
    pub(crate) fn finish_request(
        &mut self,
        id: u64,
        walk: W,
        request_result: RequestResult,
    ) -> Option<W>
        requires running { self.old.end ≡ None }
        requires own { ∥ IsOwn (W.world_of self.old.world) self.old.history.events
            self.old.table.finished id (W.seen walk) ∥₁ }
        requires asks { ∥ Asks (W.world_of self.old.world) self.old.history.events id
            (IsOver request_result) ∥₁ }
        ensures world { W.world_of self.new.world ≡ W.world_of self.old.world }
        ensures history { self.new.history.events ≡ self.old.history.events ++ Done id ∷ [] }
        ensures table { self.new.table ≡ self.old.table }
        ensures root { id ≡ 0 → self.new.end ≡ Some (Root request_result) }
        ensures others { (id ≡ 0 → ⊥) → self.new.end ≡ None }
        ensures nodes { self.new.history.nodes ≡ self.old.history.nodes }
        ensures left { IsHandedBack (W.world_of self.old.world) self.old.history.events id walk
            result }
    {
        let left = self.give_journal(id, walk);
        let end = self.kept.count_done(id);
        self.released.put_end(end);
        self.preferred.close(self.kept.place(id));
        self.history.push(Event::Done(id));
        put_slot(&mut self.slots, id, Slot::Done);
        match parent_of(&self.origins, id) {
            None => {
                self.end = Some(End::Root(request_result));
                left
            }
            Some(caller) => {
                resume(&mut self.slots, &mut self.ready, caller, id, request_result);
                self.preferred.list_ready(&self.slots, caller);
                left
            }
        }
    }

    /// Ends a request, and keeps how it has ended for others of its key. Where there is no memory,
    /// nothing is kept. The walk is handed back as by `done`. (MSBuild task: a target is run once.)
    pub(crate) fn end_request(
        &mut self,
        id: u64,
        walk: W,
        request_result: RequestResult,
    ) -> Option<W>
        requires running { self.old.end ≡ None }
        requires own { ∥ IsOwn (W.world_of self.old.world) self.old.history.events
            self.old.table.finished id (W.seen walk) ∥₁ }
        requires asks { ask_of (W.seen walk).position ≡ IsOver request_result }
        ensures world { W.world_of self.new.world ≡ W.world_of self.old.world }
        ensures history { self.new.history.events ≡ self.old.history.events ++ Done id ∷ [] }
        ensures table { self.new.table ≡ self.old.table }
        ensures root { id ≡ 0 → self.new.end ≡ Some (Root request_result) }
        ensures others { (id ≡ 0 → ⊥) → self.new.end ≡ None }
        ensures nodes { self.new.history.nodes ≡ self.old.history.nodes }
        ensures left { IsHandedBack (W.world_of self.old.world) self.old.history.events id walk
            result }
    {
        let _ = self.keep(id, &walk, &request_result);
        self.finish_request(id, walk, request_result)
    }

    /// Gives the journal of a request that is over to its caller, if it is the first call of one.
    fn give_journal(&mut self, id: u64, walk: W) -> Option<W>
        requires own { ∥ IsOwn (W.world_of self.old.world) self.old.history.events
            self.old.table.finished id (W.seen walk) ∥₁ }
        requires over { ∥ ((request_result : Told) × Asks (W.world_of self.old.world)
            self.old.history.events id (IsOver request_result)) ∥₁ }
        ensures world { W.world_of self.new.world ≡ W.world_of self.old.world }
        ensures history { self.new.history ≡ self.old.history }
        ensures table { self.new.table ≡ self.old.table }
        ensures end { self.new.end ≡ self.old.end }
        ensures left { IsHandedBack (W.world_of self.old.world) self.old.history.events id walk
            result }
    {
        match parent_of(&self.origins, id) {
            None => Some(walk),
            Some(caller) => pass_journal(&mut self.slots, &self.table, caller, id, walk),
        }
    }
}

/// The request that calls this one.
pub(crate) fn parent_of(origins: &Vec<Origin>, id: u64) -> Option<u64>
    requires { id < length origins.now.items }
    ensures { HasParent (at origins.now.items id) result }
{
    origins[id as usize].parent
}

/// Tells a caller the result of one of its calls.
fn resume<W: Drop>(
    slots: &mut Vec<Slot<W>>,
    ready: &mut RequestSet,
    caller: u64,
    id: u64,
    request_result: RequestResult,
)
    requires calls { HasOpen id (at slots.old.items caller) }
    requires absent { among caller ready.old.numbers ≡ false }
    requires room { 0 < ready.old.room }
    ensures { IsResumed slots.old.items slots.new.items ready.old ready.new caller id
        request_result }
{
    let calls = take_calls(slots, caller);
    let next = calls.tell(id, request_result);
    let is_ready = next.is_ready();
    put_slot(slots, caller, next);
    if is_ready {
        ready.insert(caller);
    }
}

/// Lets a caller take over the journal of a call that is over, where it is its first one.
fn pass_journal<W: Walker>(
    slots: &mut Vec<Slot<W>>,
    table: &Table,
    caller: u64,
    id: u64,
    call: W,
) -> Option<W>
    requires in_order { AreInOrder table.now.finished }
    requires can { CanTake W.seen table.now.finished (W.seen call) (at slots.old.items caller) }
    ensures passed { IsPassed W.seen table.now.finished slots.old.items slots.new.items caller }
    ensures left { IsLeft (at slots.old.items caller) id call result }
{
    let mut calls = take_calls(slots, caller);
    let left = calls.take_journal(id, call, table);
    put_slot(slots, caller, Slot::Calling(calls));
    left
}

fn take_calls<W: Drop>(slots: &mut Vec<Slot<W>>, caller: u64) -> Calls<W>
    requires { IsCalling (at slots.old.items caller) }
    ensures was { at slots.old.items caller ≡ Some (Calling result) }
    ensures is { slots.new.items ≡ put slots.old.items caller Over }
{
    replace_slot(slots, caller, Slot::Done).into_calls()
}
