//! Requests that are over at once by what another request of the same key has given. (MSBuild task:
//! a target is run once.)

ghost use Rattle.std.specs.Prelude.{
  ◌≡◌,
  ◌+◌,
  ◌≤◌,
  ◌<◌,
  ◌++◌,
  ◌∷◌,
  ◌↔◌,
  ◌⊎◌,
  None,
  Some,
  IfNone,
  IfOk,
  IfSome,
  IsSome,
  IsTrue,
  OnErr,
  OnOk,
  OnSome,
  drop,
  length,
  true,
};
ghost use Rattle.build_meaning.specs.declared.event.Event.TheVariants.{Assign};
ghost use Rattle.build_meaning.specs.History.{AreOfNodes};
ghost use Rattle.build_meaning.specs.Lists.{at};
ghost use Rattle.build_meaning.specs.Plain.{IsPlain};
ghost use Rattle.build_history.specs.Repeated.{uses_of_all};
ghost use Rattle.build_scheduler.specs.declared.slot.Origin.{Origin};
ghost use Rattle.build_scheduler.specs.declared.walker.Ask.TheVariants.{Done as IsOver};
ghost use Rattle.build_scheduler.specs.Kept.{
  BeganWithNothing,
  EndsAlike,
  HaveOneKey,
  IsAlike,
  IsAtOnce,
  IsCalled,
  IsCome,
  IsEndOf,
  IsKeeping,
  IsKnownPlain,
  IsReadyWalk,
  IsRepeat,
  IsRepeated,
  IsServed,
  KnowsNothing,
  MayServe,
  Serves,
  used_in,
  uses_one,
};
ghost use Rattle.build_scheduler.specs.KeptEnds.{IsWanted};
ghost use Rattle.build_scheduler.specs.Own.{IsOwn};
ghost use Rattle.build_scheduler.specs.Position.{HasEnded, ask_of};
ghost use Rattle.build_scheduler.specs.Ready.{IsReady};
ghost use Rattle.build_scheduler.specs.Shown.{is_ready};

use crate::history::History;
use crate::kept::Kept;
use crate::slot::Slot;
use crate::{Answer, Core, Walker};
use build_meaning::{ClaimKind, Event};
use msb_values::{Copied, NoMemory};
use result_cache::{RequestResult, RunId, RunRef};
use std::alloc::Global;

/// How a request ends that is over at once: the runs of which it uses the records, its result, and
/// its walk, which is over.
pub struct AtOnce<W> {
    claims: Vec<RunId>,
    told: RequestResult,
    walk: W,
}

// A drop that is written out is proved here alone.
impl<W: Drop> Drop for AtOnce<W> {
    fn drop(self) {
        let AtOnce {
            claims: _,
            told: _,
            walk: _,
        } = self;
    }
}

impl<W: Drop> AtOnce<W> {
    fn parts(self) -> (Vec<RunId>, RequestResult, W)
        ensures claims { result.0 ≡ self.claims }
        ensures told { result.1 ≡ self.told }
        ensures walk { result.2 ≡ self.walk }
    {
        let AtOnce { claims, told, walk } = self;
        (claims, told, walk)
    }
}

impl<W: Walker> Core<W> {
    /// Keeps how a request ends that is with a node and asks to be over, exactly where another
    /// request of its instance is not done, and this one began with nothing or is plain. Where
    /// there is no memory, nothing changes. (MSBuild task: a target is run once.)
    pub fn keep(
        &mut self,
        id: u64,
        walk: &W,
        request_result: &RequestResult,
    ) -> Result<(), NoMemory>
        requires own { ∥ IsOwn (W.world_of self.old.world) self.old.history.events
            self.old.table.finished id (W.seen walk.now) ∥₁ }
        requires asks { ask_of (W.seen walk.now).position ≡ IsOver request_result.now }
        ensures world { W.world_of self.new.world ≡ W.world_of self.old.world }
        ensures history { self.new.history ≡ self.old.history }
        ensures table { self.new.table ≡ self.old.table }
        ensures end { self.new.end ≡ self.old.end }
        ensures keeps { OnOk result (IsKeeping W.seen self.old.slots.items self.old.origins.items
            self.old.kept self.new.kept id walk.now (W.plain_for walk.now) request_result.now) }
        ensures err { OnErr result (self.new.kept ≡ self.old.kept) }
    {
        if let Some(kept) = self.end_of(id, walk, request_result)? {
            self.kept.put(kept);
        }
        Ok(())
    }

    /// How a request ends that is with a node and asks to be over, where that may serve others.
    fn end_of(
        &self,
        id: u64,
        walk: &W,
        request_result: &RequestResult,
    ) -> Result<Option<Kept<W>>, NoMemory>
        requires there { id < length self.now.origins.items }
        requires asked { 0 < (W.seen walk.now).asked }
        requires over { HasEnded (ask_of (W.seen walk.now).position) }
        ensures none { IfOk result (λ end. IfNone end (MayServe W.seen self.now.slots.items
            self.now.origins.items self.now.kept id (W.plain_for walk.now) → ⊥)) }
        ensures serves { IfOk result (λ end. OnSome end (MayServe W.seen self.now.slots.items
            self.now.origins.items self.now.kept id (W.plain_for walk.now))) }
        ensures is { IfOk result (λ end. IfSome end (λ end. IsEndOf W.seen self.now.slots.items
            self.now.origins.items id walk.now (W.plain_for walk.now) request_result.now end)) }
        ensures plain { IfOk result (λ end. IfSome end (λ end. end.plain ≡ true → (origin : Origin)
            → at self.now.origins.items id ≡ Some origin → IsPlain (W.seen walk.now).world
            origin.key)) }
    {
        let from_nothing = self.began_with_nothing(id);
        let plain = self.is_plain(id, walk);
        if !self.may_serve(id, from_nothing, plain) {
            return Ok(None);
        }
        Ok(Some(Kept {
            id,
            result: request_result.copy()?,
            walk: walk.copy_end()?,
            from_nothing,
            plain,
        }))
    }

    /// Whether the end of a request that began so, or whose key is plain, may serve others.
    fn may_serve(&self, id: u64, from_nothing: bool, plain: bool) -> bool
        requires there { id < length self.now.origins.items }
        ensures { IsTrue result ↔ (((from_nothing ≡ true) ⊎ (plain ≡ true))
            × IsCalled self.now.origins.items id × IsWanted self.now.kept id) }
    {
        (from_nothing || plain) && self.is_called(id) && self.kept.is_wanted(id)
    }

    /// Ends a ready request at once, exactly where it is called and in no body, and an end of its
    /// key is kept that is plain, or that began with nothing as it did itself: it is assigned, uses
    /// the records of the runs that are left to it, and is done with the same result. Else the
    /// answer is false. After that, and where there is no memory, no event has come. (MSBuild task:
    /// a target is run once.)
    pub fn repeat(&mut self, id: u64, node: u32) -> Result<bool, NoMemory>
        requires running { self.old.end ≡ None }
        requires ready { ∥ IsReady (W.world_of self.old.world) self.old.history.events id ∥₁ }
        ensures world { W.world_of self.new.world ≡ W.world_of self.old.world }
        ensures table { self.new.table ≡ self.old.table }
        ensures end { self.new.end ≡ self.old.end }
        ensures nodes { self.new.history.nodes ≡ self.old.history.nodes }
        ensures repeated { IfOk result (λ repeated. IsRepeated (W.world_of self.old.world)
            self.old.table.finished self.old.history.events self.new.history.events id node
            repeated) }
        ensures exact { IfOk result (λ repeated. IsTrue repeated ↔ IsServed W.seen
            self.old.slots.items self.old.origins.items self.old.making.items self.old.kept id) }
        ensures err { OnErr result (self.new.history.events ≡ self.old.history.events) }
    {
        match self.end_for(id)? {
            None => Ok(false),
            Some(end) => {
                self.end_at_once(id, node, end)?;
                Ok(true)
            }
        }
    }

    /// How a ready request ends that is over at once, if it is one.
    fn end_for(&self, id: u64) -> Result<Option<AtOnce<W>>, NoMemory>
        requires ready { ∥ IsReady (W.world_of self.now.world) self.now.history.events id ∥₁ }
        ensures so { IfOk result (λ end. IfSome end (λ end. ∥ IsAtOnce W.seen
            (W.world_of self.now.world) self.now.table.finished self.now.history.events id
            end ∥₁)) }
        ensures exact { IfOk result (λ end. IsSome end ↔ IsServed W.seen self.now.slots.items
            self.now.origins.items self.now.making.items self.now.kept id) }
    {
        let Some(kept) = self.kept_end(id) else {
            return Ok(None);
        };
        let alloc = *self.slots.allocator();
        let left = runs_left(&self.slots, id, kept.result.runs.as_slice());
        Ok(Some(AtOnce {
            claims: names(alloc, left)?,
            told: kept.result.copy()?,
            walk: self.walk_at(id, kept)?,
        }))
    }

    /// The walk of a ready request, come to the end that is kept for it. Where both began with
    /// nothing, it has the kept journal.
    fn walk_at(&self, id: u64, kept: &Kept<W>) -> Result<W, NoMemory>
        requires ready { ∥ IsReady (W.world_of self.now.world) self.now.history.events id ∥₁ }
        requires serves { Serves W.seen self.now.slots.items self.now.origins.items
            self.now.making.items self.now.kept id kept.now }
        ensures { IfOk result (λ walk. ∥ IsCome W.seen self.now.table.finished
            (at self.now.slots.items id) kept.now walk ∥₁) }
    {
        if kept.from_nothing && self.began_with_nothing(id) {
            return Ok(kept.walk.copy_end()?);
        }
        Ok(ready_walk(&self.slots, id).end_as(&kept.walk, &self.table)?)
    }

    /// Ends a ready request at once. Where there is no memory, no event has come.
    fn end_at_once(&mut self, id: u64, node: u32, end: AtOnce<W>) -> Result<(), NoMemory>
        requires running { self.old.end ≡ None }
        requires ready { ∥ IsReady (W.world_of self.old.world) self.old.history.events id ∥₁ }
        requires comes { ∥ IsAtOnce W.seen (W.world_of self.old.world) self.old.table.finished
            self.old.history.events id end ∥₁ }
        ensures world { W.world_of self.new.world ≡ W.world_of self.old.world }
        ensures table { self.new.table ≡ self.old.table }
        ensures end { self.new.end ≡ self.old.end }
        ensures nodes { self.new.history.nodes ≡ self.old.history.nodes }
        ensures repeated { OnOk result (∥ IsRepeat (W.world_of self.old.world)
            self.old.table.finished self.old.history.events self.new.history.events id node ∥₁) }
        ensures err { OnErr result (self.new.history.events ≡ self.old.history.events) }
    {
        let (claims, told, walk) = end.parts();
        self.history.reserve(claims.len())?;
        let before = self.use_all(id, node, claims);
        let left = self.finish_request(id, walk, told);
        self.released.put_walk(Some(before));
        self.released.put_walk(left);
        Ok(())
    }

    /// How a request has ended that serves this one, if one does.
    fn kept_end(&self, id: u64) -> Option<&Kept<W>>
        requires there { id < length self.now.origins.items }
        ensures so { IfSome result (λ kept. Serves W.seen self.now.slots.items
            self.now.origins.items self.now.making.items self.now.kept id kept.now) }
        ensures exact { IfNone result (IsServed W.seen self.now.slots.items self.now.origins.items
            self.now.making.items self.now.kept id → ⊥) }
    {
        if !self.is_called(id) || self.making[id as usize].is_some() {
            return None;
        }
        let kept = self.kept.find(id)?;
        if self.has_key_of(id, kept.id) && self.is_alike(id, kept) {
            Some(kept)
        } else {
            None
        }
    }

    /// Whether a request is called by another one: all are but the root.
    fn is_called(&self, id: u64) -> bool
        requires there { id < length self.now.origins.items }
        ensures { IsTrue result ↔ IsCalled self.now.origins.items id }
    {
        self.origins[id as usize].parent.is_some()
    }

    /// Whether two requests have one key.
    fn has_key_of(&self, id: u64, other: u64) -> bool
        requires there { id < length self.now.origins.items }
        requires other { other < length self.now.origins.items }
        ensures { IsTrue result ↔ HaveOneKey self.now.origins.items id other }
    {
        self.origins[id as usize].key == self.origins[other as usize].key
    }

    /// Whether an end is plain, or its request began with nothing as this one does.
    fn is_alike(&self, id: u64, kept: &Kept<W>) -> bool
        requires there { id < length self.now.origins.items }
        ensures { IsTrue result ↔ IsAlike W.seen self.now.slots.items self.now.origins.items id
            kept.now }
    {
        kept.plain || (kept.from_nothing && self.began_with_nothing(id))
    }

    /// Assigns a ready request, which uses the records of these runs and then asks for nothing but
    /// to be over. Its walk is handed out.
    fn use_all(&mut self, id: u64, node: u32, claims: Vec<RunId>) -> W
        requires running { self.old.end ≡ None }
        requires ready { ∥ IsReady (W.world_of self.old.world) self.old.history.events id ∥₁ }
        requires ends { ∥ EndsAlike (W.world_of self.old.world) self.old.history id node
            claims.items ∥₁ }
        ensures world { W.world_of self.new.world ≡ W.world_of self.old.world }
        ensures history { self.new.history.events ≡
            self.old.history.events ++ Assign id node ∷ uses_of_all id claims.items }
        ensures nodes { self.new.history.nodes ≡ self.old.history.nodes }
        ensures table { self.new.table ≡ self.old.table }
        ensures end { self.new.end ≡ self.old.end }
    {
        let (walk, _answer) = self.assign(id, node);
        push_uses(&mut self.history, id, claims);
        walk
    }

    /// Whether its walk knows that requests of its key are plain.
    fn is_plain(&self, id: u64, walk: &W) -> bool
        requires there { id < length self.now.origins.items }
        ensures exact { IsTrue result
            ↔ IsKnownPlain (W.plain_for walk.now) self.now.origins.items id }
        ensures plain { result ≡ true → (origin : Origin) → at self.now.origins.items id
            ≡ Some origin → IsPlain (W.seen walk.now).world origin.key }
    {
        walk.is_plain(&self.origins[id as usize].key)
    }

    /// Whether a request that is not over is called and began with an empty journal, which its
    /// caller has.
    fn began_with_nothing(&self, id: u64) -> bool
        requires there { id < length self.now.origins.items }
        ensures { IsTrue result ↔ BeganWithNothing W.seen self.now.slots.items
            self.now.origins.items id }
    {
        match self.origins[id as usize].parent {
            Some(caller) => knows_nothing(&self.slots[caller as usize]),
            None => false,
        }
    }
}

/// Whether the journal of a caller is empty.
fn knows_nothing<W: Walker>(slot: &Slot<W>) -> bool
    ensures { IsTrue result ↔ KnowsNothing W.seen (Some slot.now) }
{
    match slot {
        Slot::Calling(calls) => calls.walk.knows_nothing(),
        _ => false,
    }
}

/// The walk of a ready request.
fn ready_walk<W: Walker>(slots: &Vec<Slot<W>>, id: u64) -> &W
    requires { is_ready (at slots.now.items id) ≡ true }
    ensures { IsReadyWalk (at slots.now.items id) result.now }
{
    match &slots[id as usize] {
        Slot::Ready(walk, _) => walk,
        _ => unreachable!(),
    }
}

/// What is left to a ready request, which is between two runs, of all runs that it makes or uses.
fn runs_left<'a, W: Walker>(slots: &Vec<Slot<W>>, id: u64, runs: &'a [RunRef]) -> &'a [RunRef]
    requires ready { is_ready (at slots.now.items id) ≡ true }
    requires few { used_in W.seen (at slots.now.items id) ≤ length runs.now }
    ensures { result.now ≡ drop (used_in W.seen (at slots.now.items id)) runs.now }
{
    match &slots[id as usize] {
        Slot::Ready(walk, answer) => rest_of(&runs[walk.runs_used()..], answer),
        _ => unreachable!(),
    }
}

/// Without the run that a walk uses by its next answer, if it uses one.
fn rest_of<'a>(runs: &'a [RunRef], answer: &Answer) -> &'a [RunRef]
    requires { uses_one answer.now ≤ length runs.now }
    ensures { result.now ≡ drop (uses_one answer.now) runs.now }
{
    match answer {
        Answer::First => runs,
        Answer::Go => runs,
        Answer::Use => &runs[1..],
        Answer::Results(_) => runs,
    }
}

/// Copies of the names of runs.
fn names(alloc: Global, runs: &[RunRef]) -> Result<Vec<RunId>, NoMemory>
    ensures { IfOk result (λ names. names.items ≡ runs.now) }
{
    let mut all = Vec::with_capacity(alloc, runs.len())?;
    for run in runs {
        all.push(run.get().copy()?)?;
    }
    Ok(all)
}

/// Adds that a request uses the records of these runs, for which room was taken.
fn push_uses(history: &mut History, id: u64, claims: Vec<RunId>)
    requires room { length claims.items ≤ history.old.room }
    ensures events { history.new.events ≡ history.old.events ++ uses_of_all id claims.items }
    ensures room { history.old.room ≡ history.new.room + length claims.items }
    ensures nodes { history.new.nodes ≡ history.old.nodes }
    ensures active { AreOfNodes history.old.nodes history.old.events →
        AreOfNodes history.new.nodes history.new.events }
{
    for claimed in claims.into_iter() {
        history.push(Event::Claim(id, claimed, ClaimKind::Use));
    }
}
