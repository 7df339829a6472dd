ghost use Rattle.std.specs.Prelude.{◌≡◌, ◌+◌, ◌<◌, ◌≤◌, None, Some, IfOk, length, true};
ghost use Rattle.std.specs.Bool.{Decides};
ghost use Rattle.build_meaning.specs.Lists.{at};
ghost use Rattle.result_cache.specs.Table.{found, request_of};
ghost use Rattle.build_scheduler.specs.declared.walker.Ask.TheVariants.{Want};
ghost use Rattle.build_scheduler.specs.Calls.{HasParent};
ghost use Rattle.build_scheduler.specs.Claims.{IsClosingCycle, WouldClose};
ghost use Rattle.build_scheduler.specs.Free.{AreFree, IsFree, NeedsNothing};
ghost use Rattle.build_scheduler.specs.Own.{IsOwn};
ghost use Rattle.build_scheduler.specs.Position.{ask_of};
ghost use Rattle.build_scheduler.specs.Ready.{IsAssigned};

use crate::dependents::find_dependent;
use crate::done::parent_of;
use crate::slot::{Origin, Slot};
use crate::{Core, Walker};
use msb_values::{List, NoMemory};
use result_cache::{Found, RunId};

impl<W: Walker> Core<W> {
    /// Whether a claim of this run by a request with a node would close a cycle of runs, each of
    /// which needs the next. (MSBuild task: circular dependencies of targets.)
    pub fn cycle(&self, id: u64, run: &RunId) -> Result<bool, NoMemory>
        requires assigned { ∥ IsAssigned (W.world_of self.now.world) self.now.history.events id ∥₁ }
        ensures { IfOk result (λ closes. Decides closes ∥ WouldClose (W.world_of self.now.world)
            self.now.history.events id run.now ∥₁) }
    {
        match self.table.find(run) {
            Found::Absent => Ok(false),
            Found::Done(_) => Ok(false),
            Found::Begun(by) => {
                let dependent = find_dependent(&self.origins, &self.waiting, id, by)?;
                Ok(dependent.is_some())
            }
        }
    }

    /// The cycle that the request would close if it waited for the run that another one has begun.
    pub(crate) fn closing_cycle(
        &self,
        id: u64,
        walk: &W,
        run: &RunId,
        by: u64,
    ) -> Result<Option<List<RunId>>, NoMemory>
        requires own { ∥ IsOwn (W.world_of self.now.world) self.now.history.events
            self.now.table.finished id (W.seen walk.now) ∥₁ }
        requires asks { ask_of (W.seen walk.now).position ≡ Want run.now }
        requires unfinished { found self.now.table.finished run.now ≡ None }
        requires begun { request_of self.now.table.begun run.now ≡ Some by }
        ensures { IfOk result (λ cycle. IsClosingCycle (W.world_of self.now.world)
            self.now.history.events id run.now cycle) }
    {
        if !is_caller(&self.origins, by, id) && self.needs_nothing(by) {
            return Ok(None);
        }
        match find_dependent(&self.origins, &self.waiting, id, by)? {
            None => Ok(None),
            Some(dependent) => Ok(Some(dependent.runs(&self.making, run)?)),
        }
    }

    // Whether the run of a request needs no other: none of its calls is in a body or waits. A call
    // that is to wait for the run itself is looked at before.
    fn needs_nothing(&self, by: u64) -> bool
        requires { by < length self.now.slots.items }
        ensures { result ≡ true →
            NeedsNothing self.now.slots.items self.now.making.items (at self.now.slots.items by) }
    {
        match &self.slots[by as usize] {
            Slot::Calling(calls) => {
                are_free(&self.slots, &self.making, calls.first, calls.results.len())
            }
            _ => true,
        }
    }
}

/// Whether one request calls another.
fn is_caller(origins: &Vec<Origin>, by: u64, id: u64) -> bool
    requires { id < length origins.now.items }
    ensures { HasParent (at origins.now.items id) (Some by) → result ≡ true }
{
    match parent_of(origins, id) {
        Some(caller) => caller == by,
        None => false,
    }
}

/// Whether so many requests from a first one on are free.
fn are_free<W: Drop>(
    slots: &Vec<Slot<W>>,
    making: &Vec<Option<RunId>>,
    first: u64,
    count: usize,
) -> bool
    requires there { first + count ≤ length slots.now.items }
    requires bodies { length slots.now.items ≤ length making.now.items }
    ensures { result ≡ true → AreFree slots.now.items making.now.items first count }
{
    for i in 0..count {
        if !is_free(slots, making, first + i as u64) {
            return false;
        }
    }
    true
}

/// Whether a request is in no body, and does not wait.
fn is_free<W: Drop>(slots: &Vec<Slot<W>>, making: &Vec<Option<RunId>>, id: u64) -> bool
    requires there { id < length slots.now.items }
    requires bodies { length slots.now.items ≤ length making.now.items }
    ensures { result ≡ true → IsFree slots.now.items making.now.items id }
{
    match &slots[id as usize] {
        Slot::Waiting(_, _) => false,
        _ => making[id as usize].is_none(),
    }
}
