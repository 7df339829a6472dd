//! The children of a target. (Target element; PropertyGroup element; ItemGroup element; Task
//! element.)

ghost use Rattle.std.specs.Prelude.{◌≡◌, ◌<◌, suc, drop, length, IfOk, OnOk};
ghost use Rattle.build_world.specs.Elements.{children_of, seen_element};
ghost use Rattle.task_trait.specs.Tools.{BeginsWith};
ghost use Rattle.target_body.specs.Children.{child, group, kind_of};
ghost use Rattle.target_body.specs.Left.{
  IsOfChild,
  child_frames,
  children_frames,
  children_left,
  waiting,
};
ghost use Rattle.target_body.specs.Moments.{Continues, Plays, moment, player};
ghost use Rattle.target_body.specs.Seen.{child_at, ended, seen_kind, seen_run, seen_state};
ghost use Rattle.target_body.specs.Work.{each_in_turn, unless_stopped};

use crate::frames::AtTask;
use crate::run_context::RunContext;
use crate::scopes::apply_to_own;
use crate::state::State;
use crate::steps::{Ending, Step};
use build_world::PlacedElement;
use msb_files::{FileView, Journal};
use msb_items::change_by_group;
use msb_values::{List, NoMemory};
use result_cache::RequestResult;
use std::alloc::Global;
use target_incremental::Choice;
use task_trait::CountedTools;

/// What a child of a target is.
#[derive(Clone, Copy, Debug, PartialEq, Eq)]
pub(crate) enum Kind {
    /// A PropertyGroup or an ItemGroup.
    Group,
    OnError,
    Task,
}

impl Kind {
    fn of(name: &str) -> Kind
        ensures { seen_kind result ≡ kind_of name.now }
    {
        match name {
            "PropertyGroup" | "ItemGroup" => Kind::Group,
            "OnError" => Kind::OnError,
            _ => Kind::Task,
        }
    }
}

/// The run at hand in a bucket of its target: what is decided of the bucket. (How to build
/// incrementally.)
#[derive(Clone, Copy)]
pub(crate) struct BucketContext<'a> {
    pub(crate) run: RunContext<'a>,
    pub(crate) choice: &'a Choice,
}

impl State {
    /// Takes the children from this place on, in order, by what is decided of the bucket. (Target
    /// element.)
    pub(crate) fn children<T: CountedTools>(
        &mut self,
        context: &BucketContext<'_>,
        from: usize,
        tools: &mut T,
        journal: &mut Journal,
    ) -> Result<Step<AtTask>, NoMemory>
        ensures plays { IfOk result (λ step. let run = seen_run context.now.run in
            Plays (children_frames run context.now.choice.now)
            (player context.now.run.id.now T.answer)
            (λ s. each_in_turn (child run context.now.choice.now)
            (drop from (children_of run.target.element))
            s) (moment self.old journal.old (T.calls tools.old)) step
            (moment self.new journal.new (T.calls tools.new))) }
        ensures begun { BeginsWith (T.calls tools.old) (T.calls tools.new) }
    {
        for place in from..context.run.target.at.element.count() {
            match self.child(context, place, tools, journal)? {
                Step::Over(Ending::Fine) => {}
                Step::Over(Ending::Faulted) => return Ok(Step::Over(Ending::Faulted)),
                Step::Over(Ending::Failed) => return Ok(Step::Over(Ending::Failed)),
                Step::Waits(task) => return Ok(Step::Waits(task)),
            }
        }
        Ok(Step::Over(Ending::Fine))
    }

    fn child<T: CountedTools>(
        &mut self,
        context: &BucketContext<'_>,
        place: usize,
        tools: &mut T,
        journal: &mut Journal,
    ) -> Result<Step<AtTask>, NoMemory>
        ensures plays { IfOk result (λ step. let run = seen_run context.now.run in
            Plays (child_frames run) (player context.now.run.id.now T.answer)
            (child run context.now.choice.now (child_at run place))
            (moment self.old journal.old (T.calls tools.old)) step
            (moment self.new journal.new (T.calls tools.new))) }
        ensures child { IfOk result (λ step. IsOfChild place step) }
        ensures begun { BeginsWith (T.calls tools.old) (T.calls tools.new) }
    {
        let element = context.run.child(place);
        match Kind::of(element.element.name()) {
            Kind::Group => {
                let ending = self.group(&context.run, &element, journal)?;
                Ok(Step::Over(self.settle_after(context.run.alloc, ending)?))
            }
            Kind::OnError => Ok(Step::Over(self.settle_after(context.run.alloc, Ending::Fine)?)),
            Kind::Task => self.task(context, place, tools, journal),
        }
    }

    // A PropertyGroup or an ItemGroup: the scope has all its changes at once, or one of its texts
    // has a fault.
    fn group(
        &mut self,
        context: &RunContext<'_>,
        element: &PlacedElement<'_>,
        journal: &Journal,
    ) -> Result<Ending, NoMemory>
        ensures ended { IfOk result (λ ending. ended ending (seen_state self.new journal.now)
            ≡ group (seen_run context.now) (seen_element element.now)
            (seen_state self.old journal.now)) }
        ensures kept { OnOk result (self.new.segments ≡ self.old.segments) }
    {
        let view = FileView::of(&context.world.tree, journal);
        let project = context.project();
        match change_by_group(context.alloc, &view, project, element, &mut self.scope) {
            Ok(changes) => {
                apply_to_own(context.alloc, &mut self.task_scope, changes.as_slice())?;
                self.changes.append(changes)?;
                Ok(Ending::Fine)
            }
            Err(fault) => {
                // Some of the group's changes may be made in the scope, at which nothing looks
                // behind a fault.
                self.note_fault(context.alloc, &fault)?;
                Ok(Ending::Faulted)
            }
        }
    }

    fn after_child<T: CountedTools>(
        &mut self,
        context: &BucketContext<'_>,
        place: usize,
        step: Step<AtTask>,
        tools: &mut T,
        journal: &mut Journal,
    ) -> Result<Step<AtTask>, NoMemory>
        requires { IsOfChild place step }
        ensures goes { IfOk result (λ step_then. let run = seen_run context.now.run in
            Continues (child_frames run) (children_frames run context.now.choice.now)
            (player context.now.run.id.now T.answer)
            (λ end.
            unless_stopped end
            (each_in_turn (child run context.now.choice.now)
            (drop (suc place) (children_of run.target.element)))) step
            (moment self.old journal.old (T.calls tools.old)) step_then
            (moment self.new journal.new (T.calls tools.new))) }
        ensures begun { BeginsWith (T.calls tools.old) (T.calls tools.new) }
    {
        match step {
            Step::Over(ending) => match ending {
                Ending::Fine => {
                    let Some(next) = place.checked_add(1) else {
                        return Err(NoMemory);
                    };
                    self.children(context, next, tools, journal)
                }
                Ending::Faulted | Ending::Failed => Ok(Step::Over(ending)),
            },
            Step::Waits(task) => Ok(Step::Waits(task)),
        }
    }

    /// Goes on with the children when the results of calls have come. (MSBuild task.)
    pub(crate) fn resume_children<T: CountedTools>(
        &mut self,
        context: &BucketContext<'_>,
        task: AtTask,
        results: &List<RequestResult>,
        tools: &mut T,
        journal: &mut Journal,
    ) -> Result<Step<AtTask>, NoMemory>
        requires waits { 0 < length (waiting task.call) }
        requires fits { length results.now ≡ length (waiting task.call) }
        ensures plays { IfOk result (λ step. let run = seen_run context.now.run in
            Plays (children_frames run context.now.choice.now)
            (player context.now.run.id.now T.answer)
            (λ s. children_left run context.now.choice.now task s results.now journal.old)
            (moment self.old journal.old (T.calls tools.old)) step
            (moment self.new journal.new (T.calls tools.new))) }
        ensures begun { BeginsWith (T.calls tools.old) (T.calls tools.new) }
    {
        let place = task.child;
        let step = task.resume_task(self, &context.run, results, tools, journal)?;
        self.after_child(context, place, step, tools, journal)
    }
}
