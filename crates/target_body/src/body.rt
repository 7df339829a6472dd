ghost use Rattle.std.specs.Prelude.{◌≡◌, ◌<◌, ◌++◌, [], length, IfOk, IfSome, IsSome, OnErr};
ghost use Rattle.build_meaning.specs.SoFar.{called, recorded};
ghost use Rattle.build_world.specs.Instances.{seen_instance};
ghost use Rattle.result_cache.specs.Journal.{Journal as Files};
ghost use Rattle.task_trait.specs.Tools.{BeginsWith};
ghost use Rattle.target_body.specs.Bodies.{body_by};
ghost use Rattle.target_body.specs.Left.{left, waiting_run};
ghost use Rattle.target_body.specs.Pieces.{Chooser};
ghost use Rattle.target_body.specs.Seen.{ended, seen_chooser, seen_run, seen_state};
ghost use Rattle.target_body.specs.Standings.{
  Advances,
  Fits,
  Goes,
  Tells,
  begins,
  body_in,
  standing_by,
  standing_in,
};
ghost use Rattle.target_body.specs.States.{Run, outcome_of, target_named};
ghost use Rattle.target_body.specs.Work.{body_of};

use crate::frames::AtRun;
use crate::run_context::RunContext;
use crate::state::State;
use crate::steps::{Ending, Step};
use build_world::{Instance, World};
use msb_files::Journal;
use msb_values::{Copied, List, NoMemory, Scope};
use result_cache::{Record, RequestKey, RequestResult, RunRef};
use std::alloc::Global;
use std::mem;
use task_trait::CountedTools;

/// What the body of a run does next.
#[derive(Drop)]
pub enum BodyAsk {
    /// It calls these requests at once, at least one, and goes on when all their results have come.
    /// (MSBuild task.)
    Call(List<RequestKey>),
    /// It is over, and this is the record of the run.
    Finished(Record),
}

/// The body of a run: it goes on by itself, adds what it does to files to the journal and uses
/// tools, until it calls requests or is over. (Target element; MSBuild task.)
pub struct Body {
    pub(crate) alloc: Global,
    pub(crate) run: RunRef,
    pub(crate) stand: Stand,
}

// A drop that is written out is proved here alone.
impl Drop for Body {
    fn drop(self) {
        let Body {
            alloc: _,
            run: _,
            stand: _,
        } = self;
    }
}

pub(crate) enum Stand {
    /// It has not begun, and will begin in this scope.
    Begun(Scope),
    Waiting(Waiting),
    Ended,
}

// A drop that is written out is proved here alone.
impl Drop for Stand {
    fn drop(self) {
        match self {
            Stand::Begun(_) => {}
            Stand::Waiting(_) => {}
            Stand::Ended => {}
        }
    }
}

/// It waits for the results of calls.
pub(crate) struct Waiting {
    pub(crate) state: State,
    pub(crate) at: AtRun,
}

// A drop that is written out is proved here alone.
impl Drop for Waiting {
    fn drop(self) {
        let Waiting { state: _, at: _ } = self;
    }
}

impl Body {
    /// The body of a run that begins in this scope.
    pub fn start(alloc: Global, run: &RunRef, scope: &Scope) -> Result<Body, NoMemory>
        ensures run { IfOk result (λ body. body.run ≡ run.now) }
        ensures begins { (choose : Chooser) (run : Run) →
            IfOk result (λ body. standing_by choose run body.stand ≡ begins scope.now) }
    {
        Ok(Body {
            alloc,
            run: run.copy()?,
            stand: Stand::Begun(scope.copy()?),
        })
    }

    /// The name of the run.
    pub fn run(&self) -> Result<RunRef, NoMemory>
        ensures { IfOk result (λ run. run ≡ self.now.run) }
    {
        self.run.copy()
    }

    /// Goes on by the results of the requests that it called last, of which there are none at
    /// first, as the definition of bodies says: `Goes` in `specs/Standings.antt`. The instance and
    /// the world are those of the first call. After want of memory the body is spent, and nothing
    /// is claimed of the journal; the calls of the tools then begin with those of before.
    pub fn advance<T: CountedTools>(
        &mut self,
        world: &World,
        tools: &mut T,
        instance: &Instance,
        journal: &mut Journal,
        results: &List<RequestResult>,
    ) -> Result<BodyAsk, NoMemory>
        requires target { IsSome
            (target_named (seen_instance instance.now).targets self.old.run.target) }
        requires fits { IfSome
            (target_named (seen_instance instance.now).targets self.old.run.target) (λ target.
            Fits (standing_in world.now self.old.run target self.old) results.now) }
        ensures run { self.new.run ≡ self.old.run }
        ensures goes { IfOk result
            (λ ask. IfSome (target_named (seen_instance instance.now).targets self.old.run.target)
            (λ target.
            Goes T.answer self.old.run (body_in world.now self.old.run target)
            (standing_in world.now self.old.run target self.old) results.now
            journal.old journal.new (T.calls tools.old) (T.calls tools.new) ask
            (standing_in world.now self.old.run target self.new))) }
        ensures begun { OnErr result (BeginsWith (T.calls tools.old) (T.calls tools.new)) }
    {
        let Some(target) = instance.targets.find(&self.run.get().target) else {
            unreachable!()
        };
        let stand = mem::replace(&mut self.stand, Stand::Ended);
        let context = RunContext {
            alloc: self.alloc,
            world,
            id: &self.run,
            target,
        };
        let (ask, stand) = stand.advance(&context, results, tools, journal)?;
        self.stand = stand;
        Ok(ask)
    }
}

impl Stand {
    fn advance<T: CountedTools>(
        self,
        context: &RunContext<'_>,
        results: &List<RequestResult>,
        tools: &mut T,
        journal: &mut Journal,
    ) -> Result<(BodyAsk, Stand), NoMemory>
        requires { let run = seen_run context.now in
            Fits (standing_by (seen_chooser context.now) run self) results.now }
        ensures goes { IfOk result (λ r. let run = seen_run context.now in
            let choose = seen_chooser context.now in
            Goes T.answer context.now.id.now (body_by choose run) (standing_by choose run self)
            results.now journal.old journal.new (T.calls tools.old) (T.calls tools.new) r.0
            (standing_by choose run r.1)) }
        ensures begun { BeginsWith (T.calls tools.old) (T.calls tools.new) }
    {
        match self {
            Stand::Begun(scope) => begin(context, scope, tools, journal),
            Stand::Waiting(waiting) => waiting.resume(context, results, tools, journal),
            Stand::Ended => unreachable!(),
        }
    }
}

fn begin<T: CountedTools>(
    context: &RunContext<'_>,
    scope: Scope,
    tools: &mut T,
    journal: &mut Journal,
) -> Result<(BodyAsk, Stand), NoMemory>
    ensures goes { IfOk result (λ r. let run = seen_run context.now in
        let choose = seen_chooser context.now in
        Advances T.answer context.now.id.now (body_by choose run scope journal.old) [] journal.old
        journal.new (T.calls tools.old) (T.calls tools.new) r.0 (standing_by choose run r.1)) }
    ensures begun { BeginsWith (T.calls tools.old) (T.calls tools.new) }
{
    let mut state = State::new(context.alloc, scope.copy()?);
    let step = state.begin(context, scope, tools, journal)?;
    tell(context.alloc, state, step)
}

impl Waiting {
    fn resume<T: CountedTools>(
        self,
        context: &RunContext<'_>,
        results: &List<RequestResult>,
        tools: &mut T,
        journal: &mut Journal,
    ) -> Result<(BodyAsk, Stand), NoMemory>
        requires waits { 0 < length (waiting_run self.at) }
        requires fits { length results.now ≡ length (waiting_run self.at) }
        ensures goes { IfOk result (λ r. let run = seen_run context.now in
            let choose = seen_chooser context.now in
            Advances T.answer context.now.id.now
            (body_of (left choose run self.at (seen_state self.state journal.old) results.now
            journal.old))
            (self.state.segments ++ called (waiting_run self.at) results.now) journal.old
            journal.new (T.calls tools.old) (T.calls tools.new) r.0 (standing_by choose run r.1)) }
        ensures begun { BeginsWith (T.calls tools.old) (T.calls tools.new) }
    {
        let Waiting { state, at } = self;
        let mut state = state;
        state.add_calls(at.waiting(), results.as_slice())?;
        let step = at.resume(&mut state, context, results, tools, journal)?;
        tell(context.alloc, state, step)
    }
}

// What is asked behind a step, and where the body stands then.
fn tell(alloc: Global, state: State, step: Step<AtRun>) -> Result<(BodyAsk, Stand), NoMemory>
    ensures { IfOk result (λ r. (choose : Chooser) (run : Run) →
        Tells choose run state step r.0 (standing_by choose run r.1)) }
{
    match step {
        Step::Over(ending) => Ok((
            BodyAsk::Finished(record_of(alloc, state, ending)),
            Stand::Ended,
        )),
        Step::Waits(at) => {
            let keys = List::of(alloc, at.waiting())?;
            Ok((BodyAsk::Call(keys), Stand::Waiting(Waiting { state, at })))
        }
    }
}

// A run that has stopped returns nothing.
fn record_of(alloc: Global, state: State, ending: Ending) -> Record
    ensures { (journal : Files)
        → result ≡ recorded (outcome_of (ended ending (seen_state state journal))) state.segments }
{
    let (decisions, items, changes, notes, segments) = state.parts();
    match ending {
        Ending::Fine => Record {
            ok: true,
            decisions,
            items: items.into_list(),
            changes,
            notes,
            segments,
        },
        Ending::Faulted | Ending::Failed => Record {
            ok: false,
            decisions,
            items: List::new(alloc),
            changes,
            notes,
            segments,
        },
    }
}

impl Copied for Waiting {
    fn copy(&self) -> Result<Waiting, NoMemory> {
        Ok(Waiting {
            state: self.state.copy()?,
            at: self.at.copy()?,
        })
    }
}

impl Copied for Body {
    fn copy(&self) -> Result<Body, NoMemory> {
        let stand = match &self.stand {
            Stand::Begun(scope) => Stand::Begun(scope.copy()?),
            Stand::Waiting(waiting) => Stand::Waiting(waiting.copy()?),
            Stand::Ended => Stand::Ended,
        };
        Ok(Body {
            alloc: self.alloc,
            run: self.run.copy()?,
            stand,
        })
    }
}
