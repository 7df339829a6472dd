//! A task that is called in a bucket of its element. (Task element; MSBuild tasks; MSBuild task.)

ghost use Rattle.std.specs.Prelude.{
  ◌≡◌,
  ◌<◌,
  ◌≤◌,
  ℕ,
  List,
  ◌&&◌,
  ◌==◌,
  false,
  length,
  not,
  Some,
  Ok as TheOk,
  IfOk,
  OnOk,
};
ghost use Rattle.build_world.specs.Answers.{GivesFault};
ghost use Rattle.build_world.specs.Elements.{seen_element};
ghost use Rattle.msb_elements.specs.Nodes.{children_in};
ghost use Rattle.msb_expand.specs.Reserved.{folder_of};
ghost use Rattle.task_kit.specs.Tasks.{answer};
ghost use Rattle.task_msbuild.specs.Gathered.{gathered};
ghost use Rattle.task_trait.specs.Tools.{BeginsWith};
ghost use Rattle.task_trait.specs.declared.tools.ToolAnswer.{ToolAnswer};
ghost use Rattle.task_trait.specs.declared.tools.ToolInput.{ToolInput};
ghost use Rattle.target_texts.specs.Answered.{Pushes};
ghost use Rattle.target_texts.specs.Inferred.{task_of};
ghost use Rattle.target_texts.specs.Parameters.{params_at};
ghost use Rattle.target_texts.specs.Seen.{seen_context};
ghost use Rattle.target_body.specs.Answers.{answered, given, msbuild, not_built_in, tool};
ghost use Rattle.target_body.specs.Left.{call_frames, call_left, remaining_calls, waiting};
ghost use Rattle.target_body.specs.Moments.{EndsAs, Plays, moment, player};
ghost use Rattle.target_body.specs.Seen.{ended, seen_run, seen_state};
ghost use Rattle.target_body.specs.States.{State as Now, taken};
ghost use Rattle.target_body.specs.Tasks.{
  answered_to,
  call as call_in,
  call_context,
  called_with,
  ended_by,
  outputs_if,
  readied,
};
ghost use Rattle.target_body.specs.Work.{done, followed_by};

use crate::frames::AtCall;
use crate::run_context::{RunContext, context_in_bucket};
use crate::state::State;
use crate::steps::{Ending, Step};
use build_world::{EvalFault, PlacedElement};
use element_texts::ElementContext;
use msb_expand::Bucket;
use msb_files::{FileView, Journal};
use msb_values::{Change, Copied, List, Name, NoMemory};
use result_cache::RequestResult;
use std::alloc::Global;
use target_texts::{OnError, TaskElement, push_outputs, task_of};
use task_kit::{foreign_input, foreign_output};
use task_msbuild::{Plan, gather, gather_without_outputs, plan};
use task_trait::{CountedTools, Failure, Param, TaskOutput, ToolAnswer, ToolInput};

/// A task element in one of its buckets.
#[derive(Clone, Copy)]
pub(crate) struct TaskCall<'a> {
    pub(crate) context: RunContext<'a>,
    pub(crate) element: PlacedElement<'a>,
    /// Whether its Outputs are what the task gives; else others are inferred in their place.
    pub(crate) gives: bool,
    pub(crate) bucket: &'a Bucket,
}

impl TaskCall<'_> {
    // Whether its Outputs may take what the task gives.
    fn takes_outputs(&self) -> bool
        ensures { result ≡ (self.now.gives
            && not (length (children_in (seen_element self.now.element).node) == 0)) }
    {
        self.gives && self.element.element.count() != 0
    }
}

/// A call of a task by its name.
#[derive(Clone, Copy)]
struct NamedCall<'a> {
    call: TaskCall<'a>,
    task: &'a Name,
}

impl State {
    /// Calls a task in a bucket, unless its Condition is false. (Task element.)
    pub(crate) fn call<T: CountedTools>(
        &mut self,
        call: &TaskCall<'_>,
        tools: &mut T,
        journal: &mut Journal,
    ) -> Result<Step<AtCall>, NoMemory>
        ensures plays { IfOk result
            (λ step. let run = seen_run call.now.context in let e = seen_element call.now.element in
            Plays (call_frames run e call.now.gives call.now.bucket.now)
            (player call.now.context.id.now T.answer)
            (call_in run e call.now.gives call.now.bucket.now)
            (moment self.old journal.old (T.calls tools.old)) step
            (moment self.new journal.new (T.calls tools.new))) }
        ensures begun { BeginsWith (T.calls tools.old) (T.calls tools.new) }
    {
        match self.ready(&*call, &*journal) {
            Ok(Some((on_error, params))) => {
                self.call_with(call, on_error, params, tools, journal)
            }
            Ok(None) => Ok(Step::Over(Ending::Fine)),
            Err(fault) => {
                self.note_fault(call.context.alloc, &fault)?;
                Ok(Step::Over(Ending::Faulted))
            }
        }
    }

    // What the task is called with, as the texts of its element say in the scope that tasks see.
    fn ready<'x>(
        &'x self,
        call: &'x TaskCall<'x>,
        journal: &'x Journal,
    ) -> Result<Option<(OnError, List<Param>)>, EvalFault>
        ensures { GivesFault (λ ready. ready) result
            (readied
            (call_context (seen_run call.entry.now.context)
            (seen_state self.entry.now journal.entry.now) call.entry.now.bucket.now)
            (seen_element call.entry.now.element)) }
    {
        let view = FileView::of(&call.context.world.tree, journal);
        let scope = self.task_scope();
        let element_context = context_in_bucket(&view, call.context.project(), scope, call.bucket);
        read_call(call.context.alloc, &element_context, &call.element)
    }

    fn call_with<T: CountedTools>(
        &mut self,
        call: &TaskCall<'_>,
        on_error: OnError,
        params: List<Param>,
        tools: &mut T,
        journal: &mut Journal,
    ) -> Result<Step<AtCall>, NoMemory>
        ensures plays { IfOk result
            (λ step. let run = seen_run call.now.context in let e = seen_element call.now.element in
            Plays (call_frames run e call.now.gives call.now.bucket.now)
            (player call.now.context.id.now T.answer)
            (λ s. called_with run e call.now.gives call.now.bucket.now s (Some (on_error, params)))
            (moment self.old journal.old (T.calls tools.old)) step
            (moment self.new journal.new (T.calls tools.new))) }
        ensures begun { BeginsWith (T.calls tools.old) (T.calls tools.new) }
    {
        match Name::look_up(call.context.alloc, call.element.element.name())? {
            Some(task) => {
                let named = NamedCall {
                    call: *call,
                    task: &task,
                };
                self.answer(named, on_error, params, tools, journal)
            }
            None => {
                let task = task_of(call.context.alloc, &call.element)?;
                let output = Failure::UnknownTask.output(call.context.alloc, task.as_str())?;
                Ok(Step::Over(self.give(call, on_error, output, journal)?))
            }
        }
    }

    // A task that is built in answers at once.
    fn answer<T: CountedTools>(
        &mut self,
        named: NamedCall<'_>,
        on_error: OnError,
        params: List<Param>,
        tools: &mut T,
        journal: &mut Journal,
    ) -> Result<Step<AtCall>, NoMemory>
        ensures plays { IfOk result
            (λ step. let call = named.entry.call in
            let run = seen_run call.context in let e = seen_element call.element in
            Plays (call_frames run e call.gives call.bucket.now)
            (player call.context.id.now T.answer)
            (λ s. followed_by (answered run s named.entry.task.now params)
            (λ x. done (answered_to run e call.gives call.bucket.now on_error x)))
            (moment self.old journal.old (T.calls tools.old)) step
            (moment self.new journal.new (T.calls tools.new))) }
        ensures begun { BeginsWith (T.calls tools.old) (T.calls tools.new) }
    {
        let input = ToolInput {
            params,
            files: List::new(named.call.context.alloc),
        };
        match call_built_in(
            &named.call.context,
            named.task,
            &input,
            self.written,
            journal,
        )? {
            ToolAnswer::Made(output) => {
                Ok(Step::Over(self.give(&named.call, on_error, output, journal)?))
            }
            ToolAnswer::Unknown if named.task.key() == "msbuild" => {
                self.plan_calls(&named.call, on_error, &input, journal)
            }
            ToolAnswer::Unknown => self.use_tool(named, on_error, input.params, tools, journal),
        }
    }

    // A tool is handed the parameters and the files of Sources. (UsingTask element.)
    fn use_tool<T: CountedTools>(
        &mut self,
        named: NamedCall<'_>,
        on_error: OnError,
        params: List<Param>,
        tools: &mut T,
        journal: &mut Journal,
    ) -> Result<Step<AtCall>, NoMemory>
        ensures plays { IfOk result
            (λ step. let call = named.entry.call in
            let run = seen_run call.context in let e = seen_element call.element in
            Plays (call_frames run e call.gives call.bucket.now)
            (player call.context.id.now T.answer)
            (λ s. followed_by (not_built_in false run s named.entry.task.now params)
            (λ x. done (answered_to run e call.gives call.bucket.now on_error x)))
            (moment self.old journal.old (T.calls tools.old)) step
            (moment self.new journal.new (T.calls tools.new))) }
        ensures begun { BeginsWith (T.calls tools.old) (T.calls tools.new) }
    {
        let view = FileView::of(&named.call.context.world.tree, journal);
        match foreign_input(
            named.call.context.alloc,
            named.call.context.folder(),
            &view,
            params,
        ) {
            Ok(input) => self.call_tool(named, on_error, &input, tools, journal),
            Err(failure) => {
                let output = failure.output(named.call.context.alloc, named.task.key())?;
                Ok(Step::Over(self.give(&named.call, on_error, output, journal)?))
            }
        }
    }

    // What a tool gives of its input.
    fn call_tool<T: CountedTools>(
        &mut self,
        named: NamedCall<'_>,
        on_error: OnError,
        input: &ToolInput,
        tools: &mut T,
        journal: &mut Journal,
    ) -> Result<Step<AtCall>, NoMemory>
        ensures plays { IfOk result
            (λ step. let call = named.entry.call in
            let run = seen_run call.context in let e = seen_element call.element in
            Plays (call_frames run e call.gives call.bucket.now)
            (player call.context.id.now T.answer)
            (λ s. followed_by (tool named.entry.task.now s (TheOk input.now))
            (λ x. done (answered_to run e call.gives call.bucket.now on_error x)))
            (moment self.old journal.old (T.calls tools.old)) step
            (moment self.new journal.new (T.calls tools.new))) }
        ensures begun { BeginsWith (T.calls tools.old) (T.calls tools.new) }
    {
        let answer = tools.call(named.call.context.alloc, named.task, input)?;
        let output = foreign_output(named.call.context.alloc, named.task, answer, self.written)?;
        Ok(Step::Over(self.give(&named.call, on_error, output, journal)?))
    }

    // The MSBuild task calls requests.
    fn plan_calls(
        &mut self,
        call: &TaskCall<'_>,
        on_error: OnError,
        input: &ToolInput,
        journal: &mut Journal,
    ) -> Result<Step<AtCall>, NoMemory>
        ensures { (answer : List ℕ → ToolInput → ToolAnswer) (tools : List (List ℕ × ToolInput))
            → IfOk result
            (λ step. let run = seen_run call.now.context in let e = seen_element call.now.element in
            Plays (call_frames run e call.now.gives call.now.bucket.now)
            (player call.now.context.id.now answer)
            (λ s. followed_by (msbuild run s input.now.params)
            (λ x. done (answered_to run e call.now.gives call.now.bucket.now on_error x)))
            (moment self.old journal.old tools) step (moment self.new journal.new tools)) }
    {
        let context = &call.context;
        let tree = &context.world.tree;
        let plan = plan(
            context.alloc,
            tree,
            context.folder(),
            context.globals(),
            input,
        )?;
        let at = AtCall {
            plan,
            results: List::new(context.alloc),
            on_error,
        };
        self.make_calls(call, at, journal)
    }

    // Waits for the next calls of the plan, or gives what they have given.
    fn make_calls(
        &mut self,
        call: &TaskCall<'_>,
        at: AtCall,
        journal: &mut Journal,
    ) -> Result<Step<AtCall>, NoMemory>
        requires { length at.results ≤ length at.plan.calls }
        ensures { (answer : List ℕ → ToolInput → ToolAnswer) (tools : List (List ℕ × ToolInput))
            → IfOk result
            (λ step. let run = seen_run call.now.context in let e = seen_element call.now.element in
            Plays (call_frames run e call.now.gives call.now.bucket.now)
            (player call.now.context.id.now answer)
            (λ s. followed_by (remaining_calls at.plan at.results s)
            (λ x.
            done
            (answered_to run e call.now.gives call.now.bucket.now at.on_error
            (x.0, gathered at.plan x.1)))) (moment self.old journal.old tools) step
            (moment self.new journal.new tools)) }
    {
        if at.plan.next(&at.results).is_empty() {
            let ending = self.take_results(call, at.on_error, &at.plan, &at.results, journal)?;
            return Ok(Step::Over(ending));
        }
        Ok(Step::Waits(at))
    }

    /// Goes on when the results of calls have come. (MSBuild task.)
    pub(crate) fn resume_call(
        &mut self,
        call: &TaskCall<'_>,
        at: AtCall,
        results: &List<RequestResult>,
        journal: &mut Journal,
    ) -> Result<Step<AtCall>, NoMemory>
        requires waits { 0 < length (waiting at) }
        requires fits { length results.now ≡ length (waiting at) }
        ensures { (answer : List ℕ → ToolInput → ToolAnswer) (tools : List (List ℕ × ToolInput))
            → IfOk result
            (λ step. let run = seen_run call.now.context in let e = seen_element call.now.element in
            Plays (call_frames run e call.now.gives call.now.bucket.now)
            (player call.now.context.id.now answer)
            (λ s. call_left run e call.now.gives call.now.bucket.now at s results.now journal.old)
            (moment self.old journal.old tools) step (moment self.new journal.new tools)) }
    {
        if at.ends_with(results) {
            let ending = self.take_results(call, at.on_error, &at.plan, results, journal)?;
            return Ok(Step::Over(ending));
        }
        let mut at = at;
        at.results.append(results.copy()?)?;
        self.make_calls(call, at, journal)
    }

    // What an MSBuild task gives by the results of all its calls. Items that no Output takes are
    // not made.
    fn take_results(
        &mut self,
        call: &TaskCall<'_>,
        on_error: OnError,
        plan: &Plan,
        results: &List<RequestResult>,
        journal: &mut Journal,
    ) -> Result<Ending, NoMemory>
        requires { length results.now ≤ length plan.now.calls }
        ensures { (answer : List ℕ → ToolInput → ToolAnswer) (tools : List (List ℕ × ToolInput))
            → IfOk result
            (λ ending. let run = seen_run call.now.context in let e = seen_element call.now.element
            in
            EndsAs (player call.now.context.id.now answer)
            (λ s. followed_by (given s (gathered plan.now results.now))
            (λ x. done (answered_to run e call.now.gives call.now.bucket.now on_error x)))
            (moment self.old journal.old tools) ending (moment self.new journal.new tools)) }
    {
        if call.takes_outputs() {
            let output = gather(call.context.alloc, plan, results)?;
            return self.give(call, on_error, output, journal);
        }
        let output = gather_without_outputs(call.context.alloc, plan, results)?;
        self.give(call, on_error, output, journal)
    }

    // What a task gives: its acts are done, and then its notes and its Outputs are taken.
    fn give(
        &mut self,
        call: &TaskCall<'_>,
        on_error: OnError,
        output: TaskOutput,
        journal: &mut Journal,
    ) -> Result<Ending, NoMemory>
        ensures { (answer : List ℕ → ToolInput → ToolAnswer) (tools : List (List ℕ × ToolInput))
            → IfOk result
            (λ ending. let run = seen_run call.now.context in let e = seen_element call.now.element
            in
            EndsAs (player call.now.context.id.now answer)
            (λ s. followed_by (given s output)
            (λ x. done (answered_to run e call.now.gives call.now.bucket.now on_error x)))
            (moment self.old journal.old tools) ending (moment self.new journal.new tools)) }
    {
        let TaskOutput {
            ok,
            outputs,
            acts,
            notes,
        } = output;
        self.act_all(
            call.context.alloc,
            call.context.id,
            acts.into_vec(),
            journal,
        )?;
        self.add_notes(on_error.notes(call.context.alloc, notes)?)?;
        match self.take_outputs(call, &outputs, journal)? {
            Ending::Fine => Ok(ending_of(on_error, ok)),
            Ending::Faulted => Ok(Ending::Faulted),
            Ending::Failed => Ok(Ending::Failed),
        }
    }

    fn take_outputs(
        &mut self,
        call: &TaskCall<'_>,
        outputs: &List<Param>,
        journal: &Journal,
    ) -> Result<Ending, NoMemory>
        ensures taken { IfOk result (λ ending. let run = seen_run call.now.context in
            ended ending (seen_state self.new journal.now)
            ≡ taken
            (outputs_if call.now.gives
            (call_context run (seen_state self.old journal.now) call.now.bucket.now) outputs.now
            (seen_element call.now.element)) (seen_state self.old journal.now)) }
        ensures kept { OnOk result (self.new.segments ≡ self.old.segments) }
    {
        let mut changes = List::new(call.context.alloc);
        let end = self.push_outputs(&*call, outputs, &*journal, &mut changes);
        self.take(call.context.alloc, changes, end)
    }

    // The Outputs see the scope that tasks see.
    fn push_outputs<'x>(
        &'x self,
        call: &'x TaskCall<'x>,
        outputs: &List<Param>,
        journal: &'x Journal,
        changes: &mut List<Change>,
    ) -> Result<(), EvalFault>
        ensures { Pushes result changes.old changes.new
            (outputs_if call.entry.now.gives
            (call_context (seen_run call.entry.now.context)
            (seen_state self.entry.now journal.entry.now) call.entry.now.bucket.now) outputs.now
            (seen_element call.entry.now.element)) }
    {
        if !call.gives {
            return Ok(());
        }
        let view = FileView::of(&call.context.world.tree, journal);
        let scope = self.task_scope();
        let element_context = context_in_bucket(&view, call.context.project(), scope, call.bucket);
        push_outputs(
            call.context.alloc,
            &element_context,
            outputs,
            &call.element,
            changes,
        )
    }
}

// How the run goes on behind a task, be it that it has failed. (Task element, ContinueOnError.)
fn ending_of(on_error: OnError, ok: bool) -> Ending
    ensures { (s : Now) → ended result s ≡ ended_by on_error ok s }
{
    match on_error {
        OnError::Stop if !ok => Ending::Failed,
        _ => Ending::Fine,
    }
}

fn call_built_in(
    context: &RunContext<'_>,
    task: &Name,
    input: &ToolInput,
    written: u64,
    journal: &Journal,
) -> Result<ToolAnswer, NoMemory>
    ensures { IfOk result
        (λ output. output ≡ answer task.now (folder_of context.now.id.now.instance.path)
        (record { files = context.now.world.now.tree.files; journal = journal.now })
        input.now.params written) }
{
    let view = FileView::of(&context.world.tree, journal);
    task_kit::call(context.alloc, task, context.folder(), &view, input, written)
}

// The Condition of the element, its ContinueOnError, and then its parameters.
fn read_call(
    alloc: Global,
    context: &ElementContext<'_, FileView<'_>>,
    element: &PlacedElement<'_>,
) -> Result<Option<(OnError, List<Param>)>, EvalFault>
    ensures { GivesFault (λ ready. ready) result
        (readied (seen_context context.now) (seen_element element.now)) }
{
    if context.element_holds(alloc, element)? {
        let on_error = OnError::at(alloc, context, element)?;
        let params = params_of(alloc, context, element)?;
        return Ok(Some((on_error, params)));
    }
    Ok(None)
}

fn params_of(
    alloc: Global,
    context: &ElementContext<'_, FileView<'_>>,
    element: &PlacedElement<'_>,
) -> Result<List<Param>, EvalFault>
    ensures { GivesFault (λ params. params) result
        (params_at (seen_context context.now) (seen_element element.now)
        (task_of (seen_element element.now))) }
{
    let task = task_of(alloc, element)?;
    let task = TaskElement {
        context: *context,
        element: *element,
        task: task.as_str(),
    };
    task.params(alloc)
}
