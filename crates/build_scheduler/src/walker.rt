ghost use Rattle.std.specs.Prelude.{
  ◌≡◌,
  ◌+◌,
  ◌^◌,
  ◌<◌,
  ◌++◌,
  ℕ,
  Bool,
  List,
  [],
  drop,
  length,
  true,
  IfOk,
  IsSome,
  OnOk,
  OnErr,
  None,
  Option,
  Some,
};
ghost use mathlib.Core.List.{IsPrefix};
ghost use Rattle.result_cache.specs.declared.request.RequestKey.{RequestKey as Key};
ghost use Rattle.result_cache.specs.Replay.{replay_all};
ghost use Rattle.build_meaning.specs.Plain.{IsPlain};
ghost use Rattle.build_meaning.specs.World.{World};
ghost use Rattle.build_meaning.specs.SoFar.{ToolUse};
ghost use Rattle.build_scheduler.specs.Position.{
  Position,
  ask_of,
  answered,
  begins,
  IsInTurn,
  IsCall,
  HasEnded,
  used_between,
};
ghost use Rattle.build_scheduler.specs.Learnt.{AreInOrder, ArePartOf};
ghost use Rattle.build_scheduler.specs.Own.{Seen};

use msb_values::{List, NoMemory};
use result_cache::{RecordRef, RequestKey, RequestResult, RunId, Table};

/// What the walk of a request asks. (Target build order; MSBuild task.)
#[derive(Drop)]
pub enum Ask {
    /// It wants the record of this run.
    Want(RunId),
    /// The body that it is in calls these requests at once.
    Call(List<RequestKey>),
    /// The body of this run has come to its end, and this is its record.
    Finished(RunId, RecordRef),
    /// The request is over, with this result.
    Done(RequestResult),
}

/// How a walk is answered.
pub enum Answer {
    /// Before anything is asked.
    First,
    /// The walk makes the run that it wants.
    Go,
    /// The walk uses the record of the run that it wants, or of the run whose body has ended in it.
    Use,
    /// The results of its calls, in call order.
    Results(List<RequestResult>),
}

// A drop that is written out is proved here alone.
impl Drop for Answer {
    fn drop(self) {
        match self {
            Answer::First => {}
            Answer::Go => {}
            Answer::Use => {}
            Answer::Results(_) => {}
        }
    }
}

/// A request that asks, is answered, and goes on.
///
/// Contracts see the world that it is of, where it stands in it, how often it has asked, and the
/// records that it has learnt. How it goes on with a record does not depend on who has made the
/// run.
pub trait Walker: Sized + Drop {
    /// What a node has for every walk that it advances, such as the tools.
    type Place;

    /// What tells the world, apart from any walk.
    type Origin: Drop;

    /// What tells where a run is made: its target, and the scope.
    ghost Site: { Type 0 };

    /// What a tool is given.
    ghost Input: { Type 0 };

    /// What a tool answers.
    ghost Output: { Type 0 };

    /// The world that an origin tells.
    ghost world_of: { Self.Origin → World Self.Site Self.Input Self.Output };

    /// What contracts see of the walk.
    ghost seen: { Self → Seen Self.Site Self.Input Self.Output };

    /// Where it stood before its last `advance`, and how often it had asked; None where it was not
    /// advanced since it was made or put back.
    ghost earlier: { Self → Option (Position Self.Site Self.Input Self.Output × ℕ) };

    /// Of which keys it knows that their requests are plain.
    ghost plain_for: { Self → Key → Bool };

    /// The tools that were used at a place, in order.
    ghost used: { Self.Place → List (ToolUse Self.Input) };

    /// The name of the borrow by which a place has what is lent to it: no walk changes it.
    ghost lent: { Self.Place → ℕ };

    /// Whether what a place keeps for the walks that it advances is what this world gives.
    ghost Fits: { Self.Place → World Self.Site Self.Input Self.Output → Type 0 };

    /// What tells the walk's world. This takes no memory.
    fn origin(&self) -> Self::Origin
        ensures { Self.world_of result ≡ (Self.seen self.now).world };

    /// The walk of a request that this one calls. It begins with the caller's journal.
    fn child(&self, key: &RequestKey) -> Result<Self, NoMemory>
        requires { IsCall key.now (ask_of (Self.seen self.now).position) }
        ensures world { IfOk result (λ child. (Self.seen child).world
            ≡ (Self.seen self.now).world) }
        ensures begins { IfOk result (λ child. (Self.seen child).position
            ≡ begins (Self.seen self.now).world key.now (Self.seen self.now).position.journal) }
        ensures asked { IfOk result (λ child. (Self.seen child).asked ≡ 0) }
        ensures learnt { IfOk result (λ child. ArePartOf (Self.seen child).learnt
            (Self.seen self.now).learnt) }
        ensures earlier { IfOk result (λ child. Self.earlier child ≡ None) };

    /// Takes over the journal of a request that this one has called and that is over. The runs of
    /// that request, replayed by the table in this one's journal, give it: so this one may go on
    /// from there where it has the results of its calls. The walk stands as before. Where there is
    /// no memory, nothing is taken over. (MSBuild task.)
    fn take_journal(&mut self, call: Self, table: &Table)
        requires in_order { AreInOrder table.now.finished }
        requires known { ArePartOf (Self.seen self.old).learnt table.now.finished }
        requires replays { replay_all table.now.finished (Self.seen call).position.runs
            (Self.seen self.old).position.journal ≡ Some (Self.seen call).position.journal }
        ensures known { ArePartOf (Self.seen self.new).learnt table.now.finished }
        ensures world { (Self.seen self.new).world ≡ (Self.seen self.old).world }
        ensures position { (Self.seen self.new).position ≡ (Self.seen self.old).position }
        ensures asked { (Self.seen self.new).asked ≡ (Self.seen self.old).asked }
        ensures earlier { Self.earlier self.new ≡ Self.earlier self.old };

    /// Whether its journal is empty. This takes no memory.
    fn knows_nothing(&self) -> bool
        ensures nothing { result ≡ true → (Self.seen self.now).position.journal ≡ [] }
        ensures exact { (Self.seen self.now).position.journal ≡ [] → result ≡ true };

    /// How many runs it has made or used. This takes no memory.
    fn runs_used(&self) -> usize
        ensures { result ≡ length (Self.seen self.now).position.runs };

    /// A walk that is over as this one is, with the same journal. It has learnt nothing.
    fn copy_end(&self) -> Result<Self, NoMemory>
        requires asked { 0 < (Self.seen self.now).asked }
        requires over { HasEnded (ask_of (Self.seen self.now).position) }
        ensures world { IfOk result (λ ended. (Self.seen ended).world
            ≡ (Self.seen self.now).world) }
        ensures position { IfOk result (λ ended. (Self.seen ended).position
            ≡ (Self.seen self.now).position) }
        ensures asked { IfOk result (λ ended. (Self.seen ended).asked ≡ 1) }
        ensures learnt { IfOk result (λ ended. (Self.seen ended).learnt ≡ []) }
        ensures earlier { IfOk result (λ ended. Self.earlier ended ≡ None) };

    /// A walk that is over as that one is, from where this one stands: it has replayed the records
    /// of the runs that are left to it. It has learnt nothing.
    fn end_as(&self, end: &Self, table: &Table) -> Result<Self, NoMemory>
        requires asked { 0 < (Self.seen end.now).asked }
        requires over { HasEnded (ask_of (Self.seen end.now).position) }
        requires replays { IsSome (replay_all table.now.finished
            (drop (length (Self.seen self.now).position.runs) (Self.seen end.now).position.runs)
            (Self.seen self.now).position.journal) }
        ensures world { IfOk result (λ ended. (Self.seen ended).world
            ≡ (Self.seen self.now).world) }
        ensures journal { IfOk result (λ ended. replay_all table.now.finished
            (drop (length (Self.seen self.now).position.runs) (Self.seen end.now).position.runs)
            (Self.seen self.now).position.journal ≡ Some (Self.seen ended).position.journal) }
        ensures runs { IfOk result (λ ended. (Self.seen ended).position.runs
            ≡ (Self.seen end.now).position.runs) }
        ensures place { IfOk result (λ ended. (Self.seen ended).position.place
            ≡ (Self.seen end.now).position.place) }
        ensures asked { IfOk result (λ ended. (Self.seen ended).asked ≡ 1) }
        ensures learnt { IfOk result (λ ended. (Self.seen ended).learnt ≡ []) }
        ensures earlier { IfOk result (λ ended. Self.earlier ended ≡ None) };

    /// Whether what a request of this key asks between its runs is told by the records that it
    /// uses, and by nothing else of its journal, as far as this walk knows. This takes no memory.
    /// (MSBuild conditions, Exists.)
    fn is_plain(&self, key: &RequestKey) -> bool
        ensures so { result ≡ Self.plain_for self.now key.now }
        ensures plain { result ≡ true → IsPlain (Self.seen self.now).world key.now };

    /// Learns the records that an answer needs, through all levels of calls: the answer then takes
    /// the walk where it would by the whole table. Where there is no memory, the walk is as it was.
    fn learn(&mut self, table: &Table, answer: &Answer) -> Result<(), NoMemory>
        requires in_order { AreInOrder table.now.finished }
        requires known { ArePartOf (Self.seen self.old).learnt table.now.finished }
        requires fits { IsSome (answered (Self.seen self.old).world table.now.finished
            (Self.seen self.old).position answer.now) }
        ensures learns { OnOk result (answered (Self.seen self.old).world
            (Self.seen self.new).learnt (Self.seen self.old).position answer.now
            ≡ answered (Self.seen self.old).world table.now.finished (Self.seen self.old).position
            answer.now) }
        ensures known { ArePartOf (Self.seen self.new).learnt table.now.finished }
        ensures err { OnErr result ((Self.seen self.new).learnt ≡ (Self.seen self.old).learnt) }
        ensures world { (Self.seen self.new).world ≡ (Self.seen self.old).world }
        ensures position { (Self.seen self.new).position ≡ (Self.seen self.old).position }
        ensures asked { (Self.seen self.new).asked ≡ (Self.seen self.old).asked }
        ensures earlier { Self.earlier self.new ≡ Self.earlier self.old };

    /// Goes on with an answer to the next ask. Where there is no memory, the walk is as it was, and
    /// the calls of tools begin with those of before. The place fits the walk's world, before and
    /// after.
    fn advance(&mut self, place: &mut Self::Place, answer: &Answer) -> Result<Ask, NoMemory>
        requires fits { IsSome (answered (Self.seen self.old).world (Self.seen self.old).learnt
            (Self.seen self.old).position answer.now) }
        requires turn { IsInTurn (Self.seen self.old).asked answer.now }
        requires room { (Self.seen self.old).asked < 2 ^ 63 }
        requires place { Self.Fits place.old (Self.seen self.old).world }
        ensures place { Self.Fits place.new (Self.seen self.old).world }
        ensures lent { Self.lent place.new ≡ Self.lent place.old }
        ensures asks { IfOk result (λ ask. ask ≡ ask_of (Self.seen self.new).position) }
        ensures goes_on { OnOk result (answered (Self.seen self.old).world
            (Self.seen self.old).learnt (Self.seen self.old).position answer.now
            ≡ Some (Self.seen self.new).position) }
        ensures asked { OnOk result ((Self.seen self.new).asked ≡ (Self.seen self.old).asked + 1) }
        ensures used { OnOk result (Self.used place.new ≡ Self.used place.old
            ++ used_between (Self.seen self.old).position.place
            (Self.seen self.new).position.place) }
        ensures earlier { OnOk result (Self.earlier self.new ≡ Some (
          (Self.seen self.old).position,
          (Self.seen self.old).asked,
        )) }
        ensures stays { OnErr result ((Self.seen self.new).position
            ≡ (Self.seen self.old).position) }
        ensures asked_err { OnErr result ((Self.seen self.new).asked ≡ (Self.seen self.old).asked) }
        ensures used_err { OnErr result (IsPrefix (Self.used place.old) (Self.used place.new)) }
        ensures world { (Self.seen self.new).world ≡ (Self.seen self.old).world }
        ensures learnt { (Self.seen self.new).learnt ≡ (Self.seen self.old).learnt };

    /// Takes back the last `advance`: the walk stands as before it. This takes no memory.
    fn back(&mut self)
        requires advanced { IsSome (Self.earlier self.old) }
        ensures stands { Self.earlier self.old ≡ Some (
          (Self.seen self.new).position,
          (Self.seen self.new).asked,
        ) }
        ensures earlier { Self.earlier self.new ≡ None }
        ensures world { (Self.seen self.new).world ≡ (Self.seen self.old).world }
        ensures learnt { (Self.seen self.new).learnt ≡ (Self.seen self.old).learnt };

    /// A place fits a world in one way alone.
    ghost fits_once: { (place : Self.Place) (w : World Self.Site Self.Input Self.Output)
        (a b : Self.Fits place w) → a ≡ b };
}
