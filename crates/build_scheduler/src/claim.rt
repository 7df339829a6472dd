ghost use Rattle.std.specs.Prelude.{
  ◌≡◌,
  ◌+◌,
  ◌<◌,
  ◌≤◌,
  ◌++◌,
  ◌∷◌,
  [],
  false,
  None,
  Some,
  IsSome,
  IfOk,
  OnOk,
  OnErr,
  length,
};
ghost use Rattle.build_meaning.specs.Lists.{at, put};
ghost use Rattle.result_cache.specs.Table.{found, request_of};
ghost use Rattle.build_meaning.specs.declared.event.Event.TheVariants.{Claim};
ghost use Rattle.build_meaning.specs.declared.event.ClaimKind.TheVariants.{
  Go as Begins,
  Use as Takes,
};
ghost use Rattle.build_scheduler.specs.declared.walker.Ask.TheVariants.{Want};
ghost use Rattle.build_scheduler.specs.declared.walker.Answer.TheVariants.{Go as Goes, Use as Uses};
ghost use Rattle.build_scheduler.specs.Claims.{IsClosingCycle, IsClaimed};
ghost use Rattle.build_scheduler.specs.Numbers.{among};
ghost use Rattle.build_scheduler.specs.Own.{IsOut, IsOwn};
ghost use Rattle.build_scheduler.specs.Position.{ask_of};
ghost use Rattle.build_scheduler.specs.Shown.{HaveNumbers, IsListed, numbers_of, room_of};

use crate::history::History;
use crate::request_set::RequestSet;
use crate::scheduler::put_slot;
use crate::slot::Slot;
use crate::{Core, Walker};
use build_meaning::{ClaimKind, Event};
use msb_values::{Copied, List, NoMemory};
use result_cache::{Found, RunId};

/// How the claim of a run is answered. The walk is handed back, except where it waits.
#[derive(Drop)]
pub enum Claimed<W> {
    /// Nobody has begun the run: the walk makes it.
    Go(W),
    /// The run is finished: the walk uses its record.
    Use(W),
    /// Another request has begun the run, and the walk waits for it here.
    Wait,
    /// Another request has begun the run, and this wait would close a cycle of runs.
    Circular(W, List<RunId>),
}

impl<W: Walker> Core<W> {
    /// Claims the run that a request with a node wants. Where there is no memory, the walk is
    /// handed back, and nothing has changed. (MSBuild task: a target is run once.)
    pub(crate) fn claim(&mut self, id: u64, walk: W, run: &RunId) -> Result<Claimed<W>, W>
        requires running { self.old.end ≡ None }
        requires own { ∥ IsOwn (W.world_of self.old.world) self.old.history.events
            self.old.table.finished id (W.seen walk) ∥₁ }
        requires asks { ask_of (W.seen walk).position ≡ Want run.now }
        ensures world { W.world_of self.new.world ≡ W.world_of self.old.world }
        ensures table { self.new.table.finished ≡ self.old.table.finished }
        ensures end { self.new.end ≡ self.old.end }
        ensures nodes { self.new.history.nodes ≡ self.old.history.nodes }
        ensures claimed { IsClaimed W.seen (W.world_of self.old.world) self.old.history.events
            self.new.history.events self.new.table.finished id run.now walk result }
    {
        match self.table.find(run) {
            Found::Absent => self.go(id, walk, run),
            Found::Done(_) => self.use_record(id, walk, run),
            Found::Begun(by) => self.wait(id, walk, run, by),
        }
    }

    fn go(&mut self, id: u64, walk: W, run: &RunId) -> Result<Claimed<W>, W>
        requires running { self.old.end ≡ None }
        requires own { ∥ IsOwn (W.world_of self.old.world) self.old.history.events
            self.old.table.finished id (W.seen walk) ∥₁ }
        requires asks { ask_of (W.seen walk).position ≡ Want run.now }
        requires unfinished { found self.old.table.finished run.now ≡ None }
        requires unbegun { request_of self.old.table.begun run.now ≡ None }
        ensures world { W.world_of self.new.world ≡ W.world_of self.old.world }
        ensures table { self.new.table.finished ≡ self.old.table.finished }
        ensures end { self.new.end ≡ self.old.end }
        ensures nodes { self.new.history.nodes ≡ self.old.history.nodes }
        ensures claimed { IsClaimed W.seen (W.world_of self.old.world) self.old.history.events
            self.new.history.events self.new.table.finished id run.now walk result }
    {
        match self.begin(id, &walk, run) {
            Ok(()) => Ok(Claimed::Go(walk)),
            Err(NoMemory) => Err(walk),
        }
    }

    /// Begins a run, with room for its result.
    fn begin(&mut self, id: u64, walk: &W, run: &RunId) -> Result<(), NoMemory>
        requires running { self.old.end ≡ None }
        requires own { ∥ IsOwn (W.world_of self.old.world) self.old.history.events
            self.old.table.finished id (W.seen walk.now) ∥₁ }
        requires asks { ask_of (W.seen walk.now).position ≡ Want run.now }
        requires unfinished { found self.old.table.finished run.now ≡ None }
        requires unbegun { request_of self.old.table.begun run.now ≡ None }
        ensures world { W.world_of self.new.world ≡ W.world_of self.old.world }
        ensures table { self.new.table.finished ≡ self.old.table.finished }
        ensures end { self.new.end ≡ self.old.end }
        ensures nodes { self.new.history.nodes ≡ self.old.history.nodes }
        ensures history { OnOk result (self.new.history.events
            ≡ self.old.history.events ++ Claim id run.now Begins ∷ []) }
        ensures out { OnOk result ∥ IsOut (W.world_of self.old.world) self.new.history.events
            self.new.table.finished id (W.seen walk.now) Goes ∥₁ }
        ensures err { OnErr result (self.new.history.events ≡ self.old.history.events) }
    {
        let (claimed, begun) = begin_room(&mut self.history, run)?;
        self.table.begin(run, id)?;
        self.history.push(Event::Claim(id, claimed, ClaimKind::Go));
        put_run(&mut self.making, id, Some(begun));
        Ok(())
    }

    /// Waits for a run that another request has begun, unless this closes a cycle of runs.
    fn wait(&mut self, id: u64, walk: W, run: &RunId, by: u64) -> Result<Claimed<W>, W>
        requires running { self.old.end ≡ None }
        requires own { ∥ IsOwn (W.world_of self.old.world) self.old.history.events
            self.old.table.finished id (W.seen walk) ∥₁ }
        requires asks { ask_of (W.seen walk).position ≡ Want run.now }
        requires unfinished { found self.old.table.finished run.now ≡ None }
        requires begun { request_of self.old.table.begun run.now ≡ Some by }
        ensures world { W.world_of self.new.world ≡ W.world_of self.old.world }
        ensures table { self.new.table.finished ≡ self.old.table.finished }
        ensures end { self.new.end ≡ self.old.end }
        ensures nodes { self.new.history.nodes ≡ self.old.history.nodes }
        ensures claimed { IsClaimed W.seen (W.world_of self.old.world) self.old.history.events
            self.new.history.events self.new.table.finished id run.now walk result }
    {
        match self.closing_cycle(id, &walk, run, by) {
            Ok(Some(runs)) => Ok(Claimed::Circular(walk, runs)),
            Ok(None) => self.put_away(id, walk, run, by),
            Err(NoMemory) => Err(walk),
        }
    }

    /// Puts the walk of a request that waits for a run away.
    fn put_away(&mut self, id: u64, walk: W, run: &RunId, by: u64) -> Result<Claimed<W>, W>
        requires running { self.old.end ≡ None }
        requires own { ∥ IsOwn (W.world_of self.old.world) self.old.history.events
            self.old.table.finished id (W.seen walk) ∥₁ }
        requires asks { ask_of (W.seen walk).position ≡ Want run.now }
        requires unfinished { found self.old.table.finished run.now ≡ None }
        requires begun { request_of self.old.table.begun run.now ≡ Some by }
        requires open { IsClosingCycle (W.world_of self.old.world) self.old.history.events id
            run.now None }
        ensures world { W.world_of self.new.world ≡ W.world_of self.old.world }
        ensures table { self.new.table.finished ≡ self.old.table.finished }
        ensures end { self.new.end ≡ self.old.end }
        ensures nodes { self.new.history.nodes ≡ self.old.history.nodes }
        ensures claimed { IsClaimed W.seen (W.world_of self.old.world) self.old.history.events
            self.new.history.events self.new.table.finished id run.now walk result }
    {
        match wait_room(&mut self.history, &mut self.waiting, run, by) {
            Ok(claimed) => {
                self.history
                    .push(Event::Claim(id, claimed, ClaimKind::Wait));
                list_waiting(&mut self.waiting, by, id);
                put_slot(&mut self.slots, id, Slot::Waiting(walk, by));
                Ok(Claimed::Wait)
            }
            Err(NoMemory) => Err(walk),
        }
    }

    fn use_record(&mut self, id: u64, walk: W, run: &RunId) -> Result<Claimed<W>, W>
        requires running { self.old.end ≡ None }
        requires own { ∥ IsOwn (W.world_of self.old.world) self.old.history.events
            self.old.table.finished id (W.seen walk) ∥₁ }
        requires asks { ask_of (W.seen walk).position ≡ Want run.now }
        requires finished { IsSome (found self.old.table.finished run.now) }
        ensures world { W.world_of self.new.world ≡ W.world_of self.old.world }
        ensures table { self.new.table.finished ≡ self.old.table.finished }
        ensures end { self.new.end ≡ self.old.end }
        ensures nodes { self.new.history.nodes ≡ self.old.history.nodes }
        ensures claimed { IsClaimed W.seen (W.world_of self.old.world) self.old.history.events
            self.new.history.events self.new.table.finished id run.now walk result }
    {
        match self.take_record(id, &walk, run) {
            Ok(()) => Ok(Claimed::Use(walk)),
            Err(NoMemory) => Err(walk),
        }
    }

    fn take_record(&mut self, id: u64, walk: &W, run: &RunId) -> Result<(), NoMemory>
        requires running { self.old.end ≡ None }
        requires own { ∥ IsOwn (W.world_of self.old.world) self.old.history.events
            self.old.table.finished id (W.seen walk.now) ∥₁ }
        requires asks { ask_of (W.seen walk.now).position ≡ Want run.now }
        requires finished { IsSome (found self.old.table.finished run.now) }
        ensures world { W.world_of self.new.world ≡ W.world_of self.old.world }
        ensures table { self.new.table.finished ≡ self.old.table.finished }
        ensures end { self.new.end ≡ self.old.end }
        ensures nodes { self.new.history.nodes ≡ self.old.history.nodes }
        ensures history { OnOk result (self.new.history.events
            ≡ self.old.history.events ++ Claim id run.now Takes ∷ []) }
        ensures out { OnOk result ∥ IsOut (W.world_of self.old.world) self.new.history.events
            self.new.table.finished id (W.seen walk.now) Uses ∥₁ }
        ensures err { OnErr result (self.new.history.events ≡ self.old.history.events) }
    {
        let claimed = run.copy()?;
        self.history.reserve(1)?;
        self.history.push(Event::Claim(id, claimed, ClaimKind::Use));
        Ok(())
    }
}

/// Takes room for a run that begins: for its event and that of its result, with the run's name for
/// both.
fn begin_room(history: &mut History, run: &RunId) -> Result<(RunId, RunId), NoMemory>
    ensures events { history.new.events ≡ history.old.events }
    ensures nodes { history.new.nodes ≡ history.old.nodes }
    ensures room { history.old.room ≤ history.new.room }
    ensures ok { OnOk result (history.new.room ≡ history.old.room + 2) }
    ensures claimed { IfOk result (λ runs. runs.0 ≡ run.now) }
    ensures made { IfOk result (λ runs. runs.1 ≡ run.now) }
{
    let claimed = run.copy()?;
    let begun = run.copy()?;
    history.reserve(2)?;
    Ok((claimed, begun))
}

/// Takes room for a wait: for its event and the Assign that follows it, and in the list of those
/// that wait for the run of a request.
fn wait_room(
    history: &mut History,
    waiting: &mut Vec<RequestSet>,
    run: &RunId,
    by: u64,
) -> Result<RunId, NoMemory>
    requires { by < length waiting.old.items }
    ensures events { history.new.events ≡ history.old.events }
    ensures nodes { history.new.nodes ≡ history.old.nodes }
    ensures room { history.old.room ≤ history.new.room }
    ensures ok { OnOk result (history.new.room ≡ history.old.room + 2) }
    ensures same { HaveNumbers waiting.old.items waiting.new.items }
    ensures spare { OnOk result (0 < room_of (at waiting.new.items by)) }
    ensures run { IfOk result (λ claimed. claimed ≡ run.now) }
{
    let claimed = run.copy()?;
    history.reserve(2)?;
    waiting[by as usize].reserve(1)?;
    Ok(claimed)
}

/// Lists a request among those that wait for the run of another one.
fn list_waiting(waiting: &mut Vec<RequestSet>, by: u64, id: u64)
    requires room { 0 < room_of (at waiting.old.items by) }
    requires absent { among id (numbers_of (at waiting.old.items by)) ≡ false }
    ensures { IsListed waiting.old.items waiting.new.items by id }
{
    waiting[by as usize].insert(id);
}

/// Says in the body of which run a request is.
pub(crate) fn put_run(making: &mut Vec<Option<RunId>>, id: u64, run: Option<RunId>)
    requires { id < length making.old.items }
    ensures { making.new.items ≡ put making.old.items id run }
{
    making[id as usize] = run;
}
