//! What is left of the parts of a run where it waits for the results of calls, and how they go on
//! with them.

ghost use Rattle.std.specs.Prelude.{◌≡◌, ◌<◌, ◌==◌, ◌&&◌, length, IfOk};
ghost use Rattle.task_msbuild.specs.Plans.{next_calls};
ghost use Rattle.task_trait.specs.Tools.{BeginsWith};
ghost use Rattle.target_body.specs.Left.{
  IsOfChild,
  bucket_frames,
  bucket_left,
  buckets_frames,
  buckets_left,
  child_frames,
  child_left,
  waiting,
  waiting_bucket,
  waiting_run,
};
ghost use Rattle.target_body.specs.Moments.{Plays, moment, player};
ghost use Rattle.target_body.specs.Seen.{seen_chooser, seen_run};

use crate::calling::TaskCall;
use crate::children::BucketContext;
use crate::later::{Buckets, copy_bucket};
use crate::pieces::Piece;
use crate::run_context::RunContext;
use crate::running::TargetBuckets;
use crate::state::State;
use crate::steps::Step;
use crate::tasks::{TaskBuckets, TaskChild};
use msb_expand::Bucket;
use msb_files::Journal;
use msb_values::{Copied, Item, List, Name, NoMemory, Scope};
use result_cache::{RequestKey, RequestResult};
use std::alloc::Global;
use target_incremental::Choice;
use target_texts::OnError;
use task_msbuild::Plan;
use task_trait::CountedTools;

/// Of an MSBuild task: what it is to do, and the results that have come. (MSBuild task.)
pub(crate) struct AtCall {
    pub(crate) plan: Plan,
    pub(crate) results: List<RequestResult>,
    pub(crate) on_error: OnError,
}

// A drop that is written out is proved here alone.
impl Drop for AtCall {
    fn drop(self) {
        let AtCall {
            plan: _,
            results: _,
            on_error: _,
        } = self;
    }
}

/// Of a task element: its place among the children of the target, whether its Outputs are what the
/// task gives, its bucket at hand, and those that come later. (Task element.)
pub(crate) struct AtTask {
    pub(crate) child: usize,
    pub(crate) gives: bool,
    pub(crate) bucket: Bucket,
    pub(crate) later: Buckets,
    pub(crate) call: AtCall,
}

// A drop that is written out is proved here alone.
impl Drop for AtTask {
    fn drop(self) {
        let AtTask {
            child: _,
            gives: _,
            bucket: _,
            later: _,
            call: _,
        } = self;
    }
}

/// Of a bucket of a target: what is decided of it, and of a target that takes its items one by one,
/// their type and the bucket's items. (How to build incrementally.)
pub(crate) struct AtBucket {
    pub(crate) bucket: Bucket,
    pub(crate) choice: Choice,
    pub(crate) items: Option<(Name, List<Item>)>,
    pub(crate) task: AtTask,
}

// A drop that is written out is proved here alone.
impl Drop for AtBucket {
    fn drop(self) {
        let AtBucket {
            bucket: _,
            choice: _,
            items: _,
            task: _,
        } = self;
    }
}

/// Of a target: the scope as it found it, its bucket at hand, and those that come later.
pub(crate) struct AtRun {
    pub(crate) found: Scope,
    pub(crate) at: AtBucket,
    pub(crate) later: Buckets,
}

// A drop that is written out is proved here alone.
impl Drop for AtRun {
    fn drop(self) {
        let AtRun {
            found: _,
            at: _,
            later: _,
        } = self;
    }
}

impl AtCall {
    /// Whether these are the results of all that it calls.
    pub(crate) fn ends_with(&self, results: &List<RequestResult>) -> bool
        ensures { result ≡ ((length self.now.results == 0)
            && (length (next_calls self.now.plan results.now) == 0)) }
    {
        self.results.is_empty() && self.plan.next(results).is_empty()
    }
}

impl AtRun {
    /// The requests whose results are waited for.
    pub(crate) fn waiting(&self) -> &[RequestKey]
        ensures { result.now ≡ waiting_run self.now }
    {
        let call = &self.at.task.call;
        call.plan.next(&call.results)
    }
}

impl AtTask {
    /// Goes on with a task element when the results of calls have come. (MSBuild task.)
    pub(crate) fn resume_task<T: CountedTools>(
        self,
        state: &mut State,
        context: &RunContext<'_>,
        results: &List<RequestResult>,
        tools: &mut T,
        journal: &mut Journal,
    ) -> Result<Step<AtTask>, NoMemory>
        requires waits { 0 < length (waiting self.call) }
        requires fits { length results.now ≡ length (waiting self.call) }
        ensures plays { IfOk result (λ step. let run = seen_run context.now in
            Plays (child_frames run) (player context.now.id.now T.answer)
            (λ s. child_left run self s results.now journal.old)
            (moment state.old journal.old (T.calls tools.old)) step
            (moment state.new journal.new (T.calls tools.new))) }
        ensures child { IfOk result (λ step. IsOfChild self.child step) }
        ensures begun { BeginsWith (T.calls tools.old) (T.calls tools.new) }
    {
        let AtTask {
            child,
            gives,
            bucket,
            later,
            call,
        } = self;
        let at = TaskChild::of(context, child, gives);
        let in_bucket = TaskCall {
            context: at.context,
            element: at.element,
            gives: at.gives,
            bucket: &bucket,
        };
        let step = state.resume_call(&in_bucket, call, results, journal)?;
        let step = state.after_call(&at, TaskBuckets { bucket, later }, step, tools, journal)?;
        state.after_calls(&at, step, journal)
    }
}

impl AtBucket {
    /// Goes on with a bucket of the target when the results of calls have come. (MSBuild task.)
    pub(crate) fn resume_bucket<T: CountedTools>(
        self,
        state: &mut State,
        context: &RunContext<'_>,
        results: &List<RequestResult>,
        tools: &mut T,
        journal: &mut Journal,
    ) -> Result<Step<AtBucket>, NoMemory>
        requires waits { 0 < length (waiting_bucket self) }
        requires fits { length results.now ≡ length (waiting_bucket self) }
        ensures plays { IfOk result (λ step. let run = seen_run context.now in
            Plays (bucket_frames run) (player context.now.id.now T.answer)
            (λ s. bucket_left run self s results.now journal.old)
            (moment state.old journal.old (T.calls tools.old)) step
            (moment state.new journal.new (T.calls tools.new))) }
        ensures begun { BeginsWith (T.calls tools.old) (T.calls tools.new) }
    {
        let AtBucket {
            bucket,
            choice,
            items,
            task,
        } = self;
        let bucket_context = BucketContext {
            run: *context,
            choice: &choice,
        };
        let step = state.resume_children(&bucket_context, task, results, tools, journal)?;
        let piece = Piece {
            bucket,
            choice,
            items,
        };
        state.after_children(context, piece, step, journal)
    }
}

impl AtRun {
    /// Goes on when the results of calls have come. (MSBuild task.)
    pub(crate) fn resume<T: CountedTools>(
        self,
        state: &mut State,
        context: &RunContext<'_>,
        results: &List<RequestResult>,
        tools: &mut T,
        journal: &mut Journal,
    ) -> Result<Step<AtRun>, NoMemory>
        requires waits { 0 < length (waiting_run self) }
        requires fits { length results.now ≡ length (waiting_run self) }
        ensures plays { IfOk result (λ step. let run = seen_run context.now in
            let choose = seen_chooser context.now in
            Plays (buckets_frames choose run) (player context.now.id.now T.answer)
            (λ s. buckets_left choose run self s results.now journal.old)
            (moment state.old journal.old (T.calls tools.old)) step
            (moment state.new journal.new (T.calls tools.new))) }
        ensures begun { BeginsWith (T.calls tools.old) (T.calls tools.new) }
    {
        let AtRun { found, at, later } = self;
        let step = at.resume_bucket(state, context, results, tools, journal)?;
        state.after_bucket(
            context,
            TargetBuckets { found, later },
            step,
            tools,
            journal,
        )
    }
}

impl Copied for AtCall {
    fn copy(&self) -> Result<AtCall, NoMemory> {
        Ok(AtCall {
            plan: copy_plan(&self.plan)?,
            results: self.results.copy()?,
            on_error: self.on_error,
        })
    }
}

impl Copied for AtTask {
    fn copy(&self) -> Result<AtTask, NoMemory> {
        Ok(AtTask {
            child: self.child,
            gives: self.gives,
            bucket: copy_bucket(self.later.allocator(), &self.bucket)?,
            later: self.later.copy()?,
            call: self.call.copy()?,
        })
    }
}

impl Copied for AtBucket {
    fn copy(&self) -> Result<AtBucket, NoMemory> {
        Ok(AtBucket {
            bucket: copy_bucket(self.task.later.allocator(), &self.bucket)?,
            choice: copy_choice(&self.choice)?,
            items: copy_typed(&self.items)?,
            task: self.task.copy()?,
        })
    }
}

impl Copied for AtRun {
    fn copy(&self) -> Result<AtRun, NoMemory> {
        Ok(AtRun {
            found: self.found.copy()?,
            at: self.at.copy()?,
            later: self.later.copy()?,
        })
    }
}

fn copy_plan(plan: &Plan) -> Result<Plan, NoMemory>
    ensures { IfOk result (λ copy. copy ≡ plan.now) }
{
    Ok(Plan {
        calls: plan.calls.copy()?,
        parallel: plan.parallel,
        stop_first: plan.stop_first,
        notes: plan.notes.copy()?,
        ok: plan.ok,
    })
}

fn copy_choice(choice: &Choice) -> Result<Choice, NoMemory>
    ensures { IfOk result (λ copy. copy ≡ choice.now) }
{
    match choice {
        Choice::Run => Ok(Choice::Run),
        Choice::Skip => Ok(Choice::Skip),
        Choice::Nothing => Ok(Choice::Nothing),
        Choice::Part(old) => Ok(Choice::Part(old.copy()?)),
    }
}

/// A type and items of it, if there are any, once more.
fn copy_typed(typed: &Option<(Name, List<Item>)>) -> Result<Option<(Name, List<Item>)>, NoMemory>
    ensures { IfOk result (λ copy. copy ≡ typed.now) }
{
    match typed {
        Some((kind, items)) => Ok(Some((kind.copy()?, items.copy()?))),
        None => Ok(None),
    }
}
