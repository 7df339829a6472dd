//! A task element: it is called bucket by bucket, or its Outputs are inferred. (Task element;
//! MSBuild batching; How to build incrementally.)

ghost use Rattle.std.specs.Prelude.{◌≡◌, ℕ, List, IfOk, OnOk};
ghost use Rattle.build_world.specs.Answers.{GivesFault};
ghost use Rattle.build_world.specs.Elements.{At, seen_element};
ghost use Rattle.msb_laws.specs.Results.{map_ok};
ghost use Rattle.result_cache.specs.Journal.{Journal as Files};
ghost use Rattle.task_trait.specs.Tools.{BeginsWith};
ghost use Rattle.task_trait.specs.declared.tools.ToolAnswer.{ToolAnswer};
ghost use Rattle.task_trait.specs.declared.tools.ToolInput.{ToolInput};
ghost use Rattle.msb_files.specs.Views.{paths};
ghost use Rattle.element_texts.specs.Contexts.{item_context};
ghost use Rattle.target_texts.specs.Answered.{Pushes};
ghost use Rattle.target_texts.specs.Inferred.{inferred_at};
ghost use Rattle.target_texts.specs.Parameters.{task_buckets};
ghost use Rattle.target_texts.specs.Seen.{seen_context};
ghost use Rattle.target_body.specs.Left.{
  IsOfChild,
  IsOfTask,
  calls_frames,
  call_frames,
  child_frames,
  inferred_unless,
};
ghost use Rattle.target_body.specs.Moments.{Continues, Plays, moment, player};
ghost use Rattle.target_body.specs.Seen.{child_at, ended, seen_run, seen_state};
ghost use Rattle.target_body.specs.States.{State as Now, context_in, settled};
ghost use Rattle.target_body.specs.Tasks.{call, called, inferred, task, then_inferred};
ghost use Rattle.target_body.specs.Work.{done, each_in_turn, followed_by, unless_stopped};

use crate::calling::TaskCall;
use crate::children::BucketContext;
use crate::frames::{AtCall, AtTask};
use crate::later::Buckets;
use crate::run_context::RunContext;
use crate::state::State;
use crate::steps::{Ending, Step};
use build_world::{EvalFault, PlacedElement};
use element_texts::ElementContext;
use msb_expand::Bucket;
use msb_files::{FileView, Journal};
use msb_values::{Change, List, NoMemory, Scope};
use std::alloc::Global;
use target_incremental::Choice;
use target_texts::{TaskElement, push_inferred, task_of};
use task_trait::CountedTools;

/// A task element, a child of the target.
#[derive(Clone, Copy)]
pub(crate) struct TaskChild<'a> {
    pub(crate) context: RunContext<'a>,
    pub(crate) element: PlacedElement<'a>,
    /// Its place among the children.
    pub(crate) child: usize,
    /// Whether its Outputs are what the task gives; else others are inferred in their place.
    pub(crate) gives: bool,
}

impl<'a> TaskChild<'a> {
    pub(crate) fn of(context: &RunContext<'a>, child: usize, gives: bool) -> TaskChild<'a>
        ensures context { result.context ≡ context.now }
        ensures element { seen_element result.element ≡ child_at (seen_run context.now) child }
        ensures child { result.child ≡ child }
        ensures gives { result.gives ≡ gives }
    {
        TaskChild {
            context: *context,
            element: context.child(child),
            child,
            gives,
        }
    }
}

/// The bucket of a task element that is at hand, and those that come later.
#[derive(Drop)]
pub(crate) struct TaskBuckets {
    pub(crate) bucket: Bucket,
    pub(crate) later: Buckets,
}

impl State {
    /// Takes a task element by what is decided of the target's bucket. (How to build
    /// incrementally.)
    pub(crate) fn task<T: CountedTools>(
        &mut self,
        context: &BucketContext<'_>,
        child: usize,
        tools: &mut T,
        journal: &mut Journal,
    ) -> Result<Step<AtTask>, NoMemory>
        ensures plays { IfOk result (λ step. let run = seen_run context.now.run in
            Plays (child_frames run) (player context.now.run.id.now T.answer)
            (λ s. followed_by (task run context.now.choice.now (child_at run child) s)
            (λ end. done (map_ok settled end))) (moment self.old journal.old (T.calls tools.old))
            step (moment self.new journal.new (T.calls tools.new))) }
        ensures child { IfOk result (λ step. IsOfChild child step) }
        ensures begun { BeginsWith (T.calls tools.old) (T.calls tools.new) }
    {
        match context.choice {
            Choice::Run => self.call_in_buckets(
                &TaskChild::of(&context.run, child, true),
                tools,
                journal,
            ),
            Choice::Part(_) => {
                self.call_in_buckets(&TaskChild::of(&context.run, child, false), tools, journal)
            }
            Choice::Skip => {
                let ending = self.infer(&TaskChild::of(&context.run, child, false), journal)?;
                Ok(Step::Over(self.settle_after(context.run.alloc, ending)?))
            }
            Choice::Nothing => Ok(Step::Over(self.settle_after(context.run.alloc, Ending::Fine)?)),
        }
    }

    fn call_in_buckets<T: CountedTools>(
        &mut self,
        at: &TaskChild<'_>,
        tools: &mut T,
        journal: &mut Journal,
    ) -> Result<Step<AtTask>, NoMemory>
        requires { seen_element at.now.element ≡ child_at (seen_run at.now.context) at.now.child }
        ensures plays { IfOk result
            (λ step. let run = seen_run at.now.context in let e = seen_element at.now.element in
            Plays (child_frames run) (player at.now.context.id.now T.answer)
            (λ s. followed_by (called run e at.now.gives s)
            (λ end. done (map_ok settled (inferred_unless at.now.gives run e end))))
            (moment self.old journal.old (T.calls tools.old)) step
            (moment self.new journal.new (T.calls tools.new))) }
        ensures child { IfOk result (λ step. IsOfChild at.now.child step) }
        ensures begun { BeginsWith (T.calls tools.old) (T.calls tools.new) }
    {
        match self.task_buckets(&*at, &*journal) {
            Ok(buckets) => {
                let later = Buckets::of(buckets);
                let step = self.calls(at, later, tools, journal)?;
                self.after_calls(at, step, journal)
            }
            Err(fault) => {
                self.note_fault(at.context.alloc, &fault)?;
                Ok(Step::Over(Ending::Faulted))
            }
        }
    }

    // The buckets of a task element, in the scope that tasks see. (MSBuild batching.)
    fn task_buckets<'x>(
        &'x self,
        at: &'x TaskChild<'x>,
        journal: &'x Journal,
    ) -> Result<List<Bucket>, EvalFault>
        ensures { GivesFault (λ buckets. buckets) result
            (task_buckets
            (context_in (seen_run at.entry.now.context)
            (seen_state self.entry.now journal.entry.now)
            (seen_state self.entry.now journal.entry.now).task_scope)
            (seen_element at.entry.now.element)) }
    {
        let view = FileView::of(&at.context.world.tree, journal);
        let element_context = ElementContext::of_items(
            &view,
            at.context.project(),
            self.task_scope(),
        );
        buckets_of(at.context.alloc, &element_context, &at.element)
    }

    // Calls the task in each of these buckets.
    fn calls<T: CountedTools>(
        &mut self,
        at: &TaskChild<'_>,
        later: Buckets,
        tools: &mut T,
        journal: &mut Journal,
    ) -> Result<Step<AtTask>, NoMemory>
        requires { seen_element at.now.element ≡ child_at (seen_run at.now.context) at.now.child }
        ensures plays { IfOk result
            (λ step. let run = seen_run at.now.context in let e = seen_element at.now.element in
            Plays (calls_frames run) (player at.now.context.id.now T.answer)
            (λ s. each_in_turn (call run e at.now.gives) later s)
            (moment self.old journal.old (T.calls tools.old)) step
            (moment self.new journal.new (T.calls tools.new))) }
        ensures task { IfOk result (λ step. IsOfTask at.now.child at.now.gives step) }
        ensures begun { BeginsWith (T.calls tools.old) (T.calls tools.new) }
    {
        let mut later = later;
        while let Some(bucket) = later.next() {
            let call = TaskCall {
                context: at.context,
                element: at.element,
                gives: at.gives,
                bucket: &bucket,
            };
            match self.call(&call, tools, journal)? {
                Step::Over(Ending::Fine) => {}
                Step::Over(Ending::Faulted) => return Ok(Step::Over(Ending::Faulted)),
                Step::Over(Ending::Failed) => return Ok(Step::Over(Ending::Failed)),
                Step::Waits(call) => {
                    return Ok(Step::Waits(AtTask {
                        child: at.child,
                        gives: at.gives,
                        bucket,
                        later,
                        call,
                    }));
                }
            }
        }
        Ok(Step::Over(Ending::Fine))
    }

    // Goes on behind a call in a bucket.
    pub(crate) fn after_call<T: CountedTools>(
        &mut self,
        at: &TaskChild<'_>,
        buckets: TaskBuckets,
        step: Step<AtCall>,
        tools: &mut T,
        journal: &mut Journal,
    ) -> Result<Step<AtTask>, NoMemory>
        requires { seen_element at.now.element ≡ child_at (seen_run at.now.context) at.now.child }
        ensures goes { IfOk result
            (λ step_then. let run = seen_run at.now.context in let e = seen_element at.now.element
            in
            Continues (call_frames run e at.now.gives buckets.bucket) (calls_frames run)
            (player at.now.context.id.now T.answer)
            (λ end. unless_stopped end (each_in_turn (call run e at.now.gives) buckets.later)) step
            (moment self.old journal.old (T.calls tools.old)) step_then
            (moment self.new journal.new (T.calls tools.new))) }
        ensures task { IfOk result (λ step. IsOfTask at.now.child at.now.gives step) }
        ensures begun { BeginsWith (T.calls tools.old) (T.calls tools.new) }
    {
        let TaskBuckets { bucket, later } = buckets;
        match step {
            Step::Over(ending) => match ending {
                Ending::Fine => self.calls(at, later, tools, journal),
                Ending::Faulted | Ending::Failed => Ok(Step::Over(ending)),
            },
            Step::Waits(call) => Ok(Step::Waits(AtTask {
                child: at.child,
                gives: at.gives,
                bucket,
                later,
                call,
            })),
        }
    }

    // Goes on behind the calls of an element.
    pub(crate) fn after_calls(
        &mut self,
        at: &TaskChild<'_>,
        step: Step<AtTask>,
        journal: &Journal,
    ) -> Result<Step<AtTask>, NoMemory>
        requires element { seen_element at.now.element
            ≡ child_at (seen_run at.now.context) at.now.child }
        requires task { IsOfTask at.now.child at.now.gives step }
        ensures goes { (answer : List ℕ → ToolInput → ToolAnswer)
            (tools : List (List ℕ × ToolInput))
            → IfOk result (λ step_then. let run = seen_run at.now.context in
            Continues (calls_frames run) (child_frames run) (player at.now.context.id.now answer)
            (λ end.
            done
            (map_ok settled (inferred_unless at.now.gives run (seen_element at.now.element) end)))
            step (moment self.old journal.now tools) step_then
            (moment self.new journal.now tools)) }
        ensures child { IfOk result (λ step. IsOfChild at.now.child step) }
    {
        match step {
            Step::Over(ending) => {
                let ending = self.infer_unless(at, ending, journal)?;
                Ok(Step::Over(self.settle_after(at.context.alloc, ending)?))
            }
            Step::Waits(task) => Ok(Step::Waits(task)),
        }
    }

    // Where the Outputs of an element are not its own, they are inferred after its calls, also
    // after one that stops the body.
    fn infer_unless(
        &mut self,
        at: &TaskChild<'_>,
        ending: Ending,
        journal: &Journal,
    ) -> Result<Ending, NoMemory>
        ensures ended { IfOk result
            (λ ending_then. ended ending_then (seen_state self.new journal.now)
            ≡ inferred_unless at.now.gives (seen_run at.now.context) (seen_element at.now.element)
            (ended ending (seen_state self.old journal.now))) }
        ensures kept { OnOk result (self.new.segments ≡ self.old.segments) }
    {
        match ending {
            Ending::Fine if !at.gives => self.infer(at, journal),
            Ending::Failed if !at.gives => {
                let ending = self.infer(at, journal)?;
                Ok(ending.still_failed())
            }
            _ => Ok(ending),
        }
    }

    fn infer(&mut self, at: &TaskChild<'_>, journal: &Journal) -> Result<Ending, NoMemory>
        ensures ended { IfOk result (λ ending. ended ending (seen_state self.new journal.now)
            ≡ inferred (seen_run at.now.context) (seen_element at.now.element)
            (seen_state self.old journal.now)) }
        ensures kept { OnOk result (self.new.segments ≡ self.old.segments) }
    {
        let mut changes = List::new(at.context.alloc);
        let end = push_inferred_in(&*at, &self.scope, &*journal, &mut changes);
        self.take(at.context.alloc, changes, end)
    }

    /// A child is over, and unless it stops the run, the scope gets its changes.
    pub(crate) fn settle_after(&mut self, alloc: Global, ending: Ending) -> Result<Ending, NoMemory>
        ensures ended { IfOk result (λ ending_then. (journal : Files)
            → ended ending_then (seen_state self.new journal)
            ≡ map_ok settled (ended ending (seen_state self.old journal))) }
        ensures kept { OnOk result (self.new.segments ≡ self.old.segments) }
    {
        match ending {
            Ending::Fine => {
                self.settle(alloc)?;
                Ok(Ending::Fine)
            }
            Ending::Faulted | Ending::Failed => Ok(ending),
        }
    }
}

fn buckets_of(
    alloc: Global,
    context: &ElementContext<'_, FileView<'_>>,
    element: &PlacedElement<'_>,
) -> Result<List<Bucket>, EvalFault>
    ensures { GivesFault (λ buckets. buckets) result
        (task_buckets (seen_context context.now) (seen_element element.now)) }
{
    let task = task_of(alloc, element)?;
    let task = TaskElement {
        context: *context,
        element: *element,
        task: task.as_str(),
    };
    task.buckets(alloc)
}

// The Outputs of a task that is not called see the scope of the bucket.
fn push_inferred_in<'x>(
    at: &'x TaskChild<'x>,
    scope: &'x Scope,
    journal: &'x Journal,
    changes: &mut List<Change>,
) -> Result<(), EvalFault>
    ensures { Pushes result changes.old changes.new
        (inferred_at
        (item_context
        (paths
        (record { files = at.entry.now.context.world.now.tree.files; journal = journal.entry.now }))
        at.entry.now.context.id.now.instance.path scope.entry.now)
        (seen_element at.entry.now.element)) }
{
    let view = FileView::of(&at.context.world.tree, journal);
    let element_context = ElementContext::of_items(&view, at.context.project(), scope);
    push_inferred(at.context.alloc, &element_context, &at.element, changes)
}
