ghost use Rattle.std.specs.Prelude.{
  ◌≡◌,
  ◌+◌,
  ◌<◌,
  ◌++◌,
  ◌∷◌,
  ◌==◌,
  ◌||◌,
  ℕ,
  [],
  None,
  Some,
  false,
  length,
  map,
};
ghost use Rattle.build_meaning.specs.declared.event.Event.TheVariants.{Result};
ghost use Rattle.build_meaning.specs.Lists.{at, put};
ghost use Rattle.build_scheduler.specs.declared.walker.Ask.TheVariants.{Finished};
ghost use Rattle.build_scheduler.specs.declared.walker.Answer.TheVariants.{Use};
ghost use Rattle.build_scheduler.specs.declared.slot.Slot.TheVariants.{Ready};
ghost use Rattle.build_scheduler.specs.Numbers.{among};
ghost use Rattle.build_scheduler.specs.Own.{Asks, IsOut, IsOwn};
ghost use Rattle.build_scheduler.specs.Position.{ask_of};
ghost use Rattle.build_scheduler.specs.Shown.{Indexed, IsWaiting, IsWoken, Listed, woken_by};

use crate::request_set::RequestSet;
use crate::scheduler::replace_slot;
use crate::slot::Slot;
use crate::{Answer, Core, Walker};
use build_meaning::Event;
use result_cache::{RecordRef, RunId};
use std::mem;

impl<W: Walker> Core<W> {
    /// Finishes the run whose body has come to its end, and makes every request that waits for it
    /// ready. The request that made it goes on with Use. This takes no memory. (MSBuild task: a
    /// target is run once.)
    pub(crate) fn result(&mut self, id: u64, run: &RunId, run_record: RecordRef)
        requires running { self.old.end ≡ None }
        requires asks { ∥ Asks (W.world_of self.old.world) self.old.history.events id
            (Finished run.now run_record) ∥₁ }
        ensures world { W.world_of self.new.world ≡ W.world_of self.old.world }
        ensures history { self.new.history.events
            ≡ self.old.history.events ++ Result id run.now ∷ [] }
        ensures table { self.new.table.finished
            ≡ record { run = run.now; made = run_record } ∷ self.old.table.finished }
        ensures end { self.new.end ≡ self.old.end }
        ensures nodes { self.new.history.nodes ≡ self.old.history.nodes }
        ensures out { (walk : W) → ∥ IsOwn (W.world_of self.old.world) self.old.history.events
            self.old.table.finished id (W.seen walk) ∥₁ → ask_of (W.seen walk).position
            ≡ Finished run.now run_record
            → ∥ IsOut (W.world_of self.new.world) self.new.history.events
            self.new.table.finished id (W.seen walk) Use ∥₁ }
    {
        self.table.finish(run, run_record);
        match take_run(&mut self.making, id) {
            Some(finished) => self.history.push(Event::Result(id, finished)),
            None => unreachable!(),
        }
        self.preferred.list_all(self.waiting.get(id as usize));
        wake(&mut self.slots, &mut self.ready, &mut self.waiting, id);
    }
}

/// Takes the run in whose body a request is.
fn take_run(making: &mut Vec<Option<RunId>>, id: u64) -> Option<RunId>
    requires { id < length making.old.items }
    ensures was { at making.old.items id ≡ Some result }
    ensures is { making.new.items ≡ put making.old.items id None }
{
    mem::replace(&mut making[id as usize], None)
}

/// Makes each slot ready that waits for the run of this request.
fn wake<W: Drop>(
    slots: &mut Vec<Slot<W>>,
    ready: &mut RequestSet,
    waiting: &mut Vec<RequestSet>,
    id: u64,
)
    requires indexed { ∥ Indexed slots.old.items ready.old waiting.old.items ∥₁ }
    requires there { id < length slots.old.items }
    ensures slots { slots.new.items ≡ map (woken_by id) slots.old.items }
    ensures indexed { ∥ Indexed slots.new.items ready.new waiting.new.items ∥₁ }
{
    wake_listed(slots, ready, &mut waiting[id as usize], id);
}

fn wake_listed<W: Drop>(
    slots: &mut Vec<Slot<W>>,
    ready: &mut RequestSet,
    waiting: &mut RequestSet,
    id: u64,
)
    requires { Listed id slots.old.items ready.old waiting.old.numbers }
    ensures slots { slots.new.items ≡ map (woken_by id) slots.old.items }
    ensures listed { Listed id slots.new.items ready.new waiting.new.numbers }
    ensures waiting { waiting.new.numbers ≡ [] }
{
    while let Some(number) = waiting.pop() {
        wake_one(slots, ready, number);
    }
}

/// Makes a slot that waits ready.
fn wake_one<W: Drop>(slots: &mut Vec<Slot<W>>, ready: &mut RequestSet, number: u64)
    requires waits { IsWaiting (at slots.old.items number) }
    requires absent { among number ready.old.numbers ≡ false }
    requires room { 0 < ready.old.room }
    ensures slots { IsWoken slots.old.items slots.new.items number }
    ensures ready { (n : ℕ) → among n ready.new.numbers
        ≡ (number == n || among n ready.old.numbers) }
    ensures room { ready.old.room ≡ ready.new.room + 1 }
{
    let (walk, _) = replace_slot(slots, number, Slot::Done).into_waiting();
    put_ready(slots, number, walk);
    ready.insert(number);
}

fn put_ready<W: Drop>(slots: &mut Vec<Slot<W>>, number: u64, walk: W)
    requires { number < length slots.old.items }
    ensures { slots.new.items ≡ put slots.old.items number (Ready walk Use) }
{
    slots[number as usize] = Slot::Ready(walk, Answer::Use);
}
