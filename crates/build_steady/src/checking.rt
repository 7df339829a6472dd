ghost use Rattle.std.specs.Prelude.{
  ◌≡◌,
  ◌+◌,
  ◌^◌,
  ◌<◌,
  ◌++◌,
  ◌∷◌,
  List,
  [],
  IfOk,
  IsSome,
  OnOk,
  Some,
  length,
};
ghost use Rattle.result_cache.specs.declared.request.RequestKey.{RequestKey};
ghost use Rattle.build_scheduler.specs.declared.walker.Ask.TheVariants.{
  Want,
  Call,
  Finished as IsFinished,
  Done as IsDone,
};
ghost use Rattle.build_scheduler.specs.declared.walker.Answer.TheVariants.{Results};
ghost use mathlib.Core.List.{IsPrefix};
ghost use Rattle.build_scheduler.specs.Learnt.{AreInOrder, ArePartOf};
ghost use Rattle.build_scheduler.specs.Position.{IsInTurn, answered, ask_of, begins};
ghost use Rattle.build_steady.specs.declared.checking.CheckStep.TheVariants.{GoesOn};
ghost use Rattle.build_steady.specs.declared.verdict.Verdict.TheVariants.{TooDeep};
ghost use Rattle.build_steady.specs.Findings.{Shows};
ghost use Rattle.build_steady.specs.Held.{IsAsking, IsHeld, IsReady, IsCheckStep};
ghost use Rattle.build_steady.specs.Verdicts.{verdict_of};

use crate::findings::Findings;
use crate::{Recalls, Verdict};
use build_scheduler::{Answer, Ask};
use msb_values::{Copied, InstanceKey, List, NoMemory};
use result_cache::{RecordRef, RequestKey, RequestResult, RunId, RunRef, Table};
use std::alloc::Global;

/// A request whose body calls others, which are made one after the other.
pub struct Caller<W> {
    walk: W,
    calls: List<RequestKey>,
    /// The results of the calls that are over, in call order.
    results: Vec<RequestResult>,
}

// A drop that is written out is proved here alone.
impl<W: Drop> Drop for Caller<W> {
    fn drop(self) {
        let Caller {
            walk: _,
            calls: _,
            results: _,
        } = self;
    }
}

/// What comes next.
#[derive(Drop)]
pub enum CheckStep<W> {
    /// A walk goes on with this answer.
    GoesOn(W, Answer),
    /// The check is over, with this verdict.
    Over(Verdict),
}

/// A check on its way.
pub struct Check<W> {
    findings: Findings,
    /// The runs whose bodies are under way, the innermost last.
    path: Vec<RunId>,
    /// The requests that call each other down to the one that goes on.
    callers: Vec<Caller<W>>,
    /// How often walks have asked.
    asks: u64,
}

// A drop that is written out is proved here alone.
impl<W: Drop> Drop for Check<W> {
    fn drop(self) {
        let Check {
            findings: _,
            path: _,
            callers: _,
            asks: _,
        } = self;
    }
}

/// A request that calls is below fewer callers than this: so many requests may be nested, but for
/// the last.
const MOST_CALLERS: usize = 127;

/// Walks ask no more often than this in a check.
const MOST_ASKS: u64 = 1 << 62;

/// Checks the world of a root request, whose walk had no answer yet and is for this instance. Each
/// run is made wherever the journal of the request that wants it lacks it, in the order of demand,
/// up to the first event that speaks against the world. One record is kept of each run. Want of
/// memory is the only refusal; the tools' uses begin with those of before then, too. The place fits
/// the world, before and after. (MSBuild task; Building projects in parallel.)
pub fn check_walk<W: Recalls>(
    alloc: Global,
    root: &InstanceKey,
    walk: W,
    place: &mut W::Place,
) -> Result<Verdict, NoMemory>
    requires root { root.now ≡ (W.seen walk).world.root.instance }
    requires begins { (W.seen walk).position ≡ begins (W.seen walk).world (W.seen walk).world.root
        [] }
    requires asked { (W.seen walk).asked ≡ 0 }
    requires learnt { (W.seen walk).learnt ≡ [] }
    requires place { W.Fits place.old (W.seen walk).world }
    ensures verdict { IfOk result (λ verdict. verdict ≡ verdict_of (W.seen walk).world) }
    ensures front { IsPrefix (W.used place.old) (W.used place.new) }
    ensures place { W.Fits place.new (W.seen walk).world }
    ensures lent { W.lent place.new ≡ W.lent place.old }
{
    let mut check = Check::new(alloc);
    let mut next = check.start(root, walk)?;
    while check.asks < MOST_ASKS {
        match next {
            CheckStep::GoesOn(walk, answer) => next = check.step(place, walk, answer)?,
            CheckStep::Over(verdict) => return Ok(verdict),
        }
    }
    Err(NoMemory)
}

impl<W: Recalls> Check<W> {
    fn new(alloc: Global) -> Check<W>
        ensures findings { Shows result.findings [] }
        ensures records { result.findings.records.finished ≡ [] }
        ensures path { result.path.items ≡ [] }
        ensures callers { result.callers.items ≡ [] }
        ensures asks { result.asks ≡ 0 }
    {
        Check {
            findings: Findings::new(alloc),
            path: Vec::new(alloc),
            callers: Vec::new(alloc),
            asks: 0,
        }
    }

    /// The root request is reached.
    fn start(&mut self, root: &InstanceKey, walk: W) -> Result<CheckStep<W>, NoMemory>
        requires root { root.now ≡ (W.seen walk).world.root.instance }
        requires begins { (W.seen walk).position ≡ begins (W.seen walk).world
            (W.seen walk).world.root [] }
        requires asked { (W.seen walk).asked ≡ 0 }
        requires learnt { (W.seen walk).learnt ≡ [] }
        requires findings { Shows self.old.findings [] }
        requires records { self.old.findings.records.finished ≡ [] }
        requires path { self.old.path.items ≡ [] }
        requires callers { self.old.callers.items ≡ [] }
        requires asks { self.old.asks ≡ 0 }
        ensures turn { IfOk result (IsCheckStep W.seen (W.seen walk).world self.new) }
        ensures asks { self.new.asks ≡ 0 }
    {
        match self.findings.reach(root)? {
            Some(verdict) => Ok(CheckStep::Over(verdict)),
            None => Ok(CheckStep::GoesOn(walk, Answer::First)),
        }
    }

    /// A walk goes on to its next ask, which is answered.
    fn step(
        &mut self,
        place: &mut W::Place,
        walk: W,
        answer: Answer,
    ) -> Result<CheckStep<W>, NoMemory>
        requires room { self.old.asks < 2 ^ 62 }
        requires turn { IsCheckStep W.seen (W.seen walk).world self.old (GoesOn walk answer) }
        requires place { W.Fits place.old (W.seen walk).world }
        ensures turn { IfOk result (IsCheckStep W.seen (W.seen walk).world self.new) }
        ensures asks { OnOk result (self.new.asks ≡ self.old.asks + 1) }
        ensures front { IsPrefix (W.used place.old) (W.used place.new) }
        ensures place { W.Fits place.new (W.seen walk).world }
        ensures lent { W.lent place.new ≡ W.lent place.old }
    {
        let mut walk = walk;
        let ask = advance(&self.findings.records, place, &mut walk, &answer)?;
        self.asks += 1;
        match ask {
            Ask::Want(run) => self.want(walk, run),
            Ask::Call(calls) => self.call(walk, calls),
            Ask::Finished(run, run_record) => self.finish(walk, &run, run_record),
            Ask::Done(request_result) => self.end_request(walk, request_result),
        }
    }

    /// A run is wanted: it has ended in the journal, or is made, unless it is wanted in its own
    /// body. (MSBuild task: a target is run once.)
    fn want(&mut self, walk: W, run: RunId) -> Result<CheckStep<W>, NoMemory>
        requires held { IsHeld W.seen (W.seen walk).world self.old (W.seen walk).position }
        requires asking { IsAsking (W.seen walk).world self.old.findings.records.finished
            self.old.asks (W.seen walk) }
        requires asks { ask_of (W.seen walk).position ≡ Want run }
        ensures turn { IfOk result (IsCheckStep W.seen (W.seen walk).world self.new) }
        ensures asks { self.new.asks ≡ self.old.asks }
    {
        let name = RunRef::new(*self.callers.allocator(), &run)?;
        if walk.recalls(&name) {
            return Ok(CheckStep::GoesOn(walk, Answer::Use));
        }
        if self.path.contains(&run) {
            return Ok(CheckStep::Over(Verdict::Circular(run)));
        }
        match self.findings.begin() {
            Some(verdict) => Ok(CheckStep::Over(verdict)),
            None => {
                self.path.push(run)?;
                Ok(CheckStep::GoesOn(walk, Answer::Go))
            }
        }
    }

    /// The body of a run has come to its end.
    fn finish(
        &mut self,
        walk: W,
        run: &RunId,
        run_record: RecordRef,
    ) -> Result<CheckStep<W>, NoMemory>
        requires held { IsHeld W.seen (W.seen walk).world self.old (W.seen walk).position }
        requires asking { IsAsking (W.seen walk).world self.old.findings.records.finished
            self.old.asks (W.seen walk) }
        requires asks { ask_of (W.seen walk).position ≡ IsFinished run.now run_record }
        ensures turn { IfOk result (IsCheckStep W.seen (W.seen walk).world self.new) }
        ensures asks { self.new.asks ≡ self.old.asks }
    {
        match self.findings.end(run, run_record)? {
            Some(verdict) => Ok(CheckStep::Over(verdict)),
            None => {
                self.path.pop();
                Ok(CheckStep::GoesOn(walk, Answer::Use))
            }
        }
    }

    /// A body calls requests, unless they would be nested too deep. (MSBuild task,
    /// BuildInParallel.)
    fn call(&mut self, walk: W, calls: List<RequestKey>) -> Result<CheckStep<W>, NoMemory>
        requires held { IsHeld W.seen (W.seen walk).world self.old (W.seen walk).position }
        requires asking { IsAsking (W.seen walk).world self.old.findings.records.finished
            self.old.asks (W.seen walk) }
        requires asks { ask_of (W.seen walk).position ≡ Call calls }
        ensures turn { IfOk result (IsCheckStep W.seen (W.seen walk).world self.new) }
        ensures asks { self.new.asks ≡ self.old.asks }
    {
        if self.callers.len() >= MOST_CALLERS {
            return Ok(CheckStep::Over(too_deep(calls.as_slice())?));
        }
        let results = Vec::new(*self.callers.allocator());
        self.next_call(Caller {
            walk,
            calls,
            results,
        })
    }

    /// A request is over. Its caller has its result, and the root's is the end of the check.
    fn end_request(
        &mut self,
        walk: W,
        request_result: RequestResult,
    ) -> Result<CheckStep<W>, NoMemory>
        requires held { IsHeld W.seen (W.seen walk).world self.old (W.seen walk).position }
        requires asks { ask_of (W.seen walk).position ≡ IsDone request_result }
        ensures turn { IfOk result (IsCheckStep W.seen (W.seen walk).world self.new) }
        ensures asks { self.new.asks ≡ self.old.asks }
    {
        match self.callers.pop() {
            None => Ok(CheckStep::Over(Verdict::Steady(self.findings.bodies))),
            Some(caller) => self.next_call(caller.with_result(request_result)?),
        }
    }

    /// The next call of a request is reached, or the request goes on with the results of all.
    fn next_call(&mut self, caller: Caller<W>) -> Result<CheckStep<W>, NoMemory>
        requires { IsReady W.seen (W.seen caller.walk).world self.old caller }
        ensures turn { IfOk result (IsCheckStep W.seen (W.seen caller.walk).world self.new) }
        ensures asks { self.new.asks ≡ self.old.asks }
    {
        let begun = caller.results.len();
        let all = caller.calls.len();
        if begun == all {
            return Ok(caller.resume());
        }
        let key = &caller.calls.as_slice()[begun];
        match self.findings.reach(&key.instance)? {
            Some(verdict) => Ok(CheckStep::Over(verdict)),
            None => {
                let child = caller.walk.child(key)?;
                self.callers.push(caller)?;
                Ok(CheckStep::GoesOn(child, Answer::First))
            }
        }
    }
}

impl<W: Drop> Caller<W> {
    /// It has the result of one more call.
    fn with_result(self, request_result: RequestResult) -> Result<Caller<W>, NoMemory>
        ensures walk { IfOk result (λ caller. caller.walk ≡ self.walk) }
        ensures calls { IfOk result (λ caller. caller.calls ≡ self.calls) }
        ensures results { IfOk result (λ caller. caller.results.items ≡ self.results.items
            ++ request_result ∷ []) }
    {
        let mut caller = self;
        caller.results.push(request_result)?;
        Ok(caller)
    }

    /// It goes on with the results of all its calls.
    fn resume(self) -> CheckStep<W>
        ensures { result ≡ GoesOn self.walk (Results self.results.items) }
    {
        let Caller {
            walk,
            calls: _,
            results,
        } = self;
        CheckStep::GoesOn(walk, Answer::Results(List::from(results)))
    }
}

/// The verdict on calls that are nested too deep: the first of them is reached.
fn too_deep(calls: &[RequestKey]) -> Result<Verdict, NoMemory>
    requires { 0 < length calls.now }
    ensures { IfOk result (λ verdict. (key : RequestKey) (keys : List RequestKey) →
        calls.now ≡ key ∷ keys → verdict ≡ TooDeep key.instance) }
{
    let key = &calls[0];
    Ok(Verdict::TooDeep(key.instance.copy()?))
}

/// The walk learns the records that its answer needs, and goes on to its next ask.
fn advance<W: Recalls>(
    records: &Table,
    place: &mut W::Place,
    walk: &mut W,
    answer: &Answer,
) -> Result<Ask, NoMemory>
    requires in_order { AreInOrder records.now.finished }
    requires known { ArePartOf (W.seen walk.old).learnt records.now.finished }
    requires fits { IsSome (answered (W.seen walk.old).world records.now.finished
        (W.seen walk.old).position answer.now) }
    requires turn { IsInTurn (W.seen walk.old).asked answer.now }
    requires room { (W.seen walk.old).asked < 2 ^ 63 }
    requires place { W.Fits place.old (W.seen walk.old).world }
    ensures asks { IfOk result (λ ask. ask ≡ ask_of (W.seen walk.new).position) }
    ensures goes_on { OnOk result (answered (W.seen walk.old).world records.now.finished
        (W.seen walk.old).position answer.now ≡ Some (W.seen walk.new).position) }
    ensures asked { OnOk result ((W.seen walk.new).asked ≡ (W.seen walk.old).asked + 1) }
    ensures known { ArePartOf (W.seen walk.new).learnt records.now.finished }
    ensures world { (W.seen walk.new).world ≡ (W.seen walk.old).world }
    ensures front { IsPrefix (W.used place.old) (W.used place.new) }
    ensures place { W.Fits place.new (W.seen walk.old).world }
    ensures lent { W.lent place.new ≡ W.lent place.old }
{
    walk.learn(records, answer)?;
    walk.advance(place, answer)
}
