//! A bucket of a target: what is decided of it, its children, and what it returns. (Target element;
//! How to build incrementally.)

ghost use Rattle.std.specs.Prelude.{◌≡◌, ℕ, List, IfOk, OnOk, option_copied, option_map};
ghost use Rattle.build_world.specs.Answers.{GivesFault};
ghost use Rattle.msb_laws.specs.Results.{and_then, map_ok};
ghost use Rattle.result_cache.specs.Journal.{Journal as Files};
ghost use Rattle.task_trait.specs.Tools.{BeginsWith};
ghost use Rattle.task_trait.specs.declared.tools.ToolAnswer.{ToolAnswer};
ghost use Rattle.task_trait.specs.declared.tools.ToolInput.{ToolInput};
ghost use Rattle.target_incremental.specs.Decisions.{decision};
ghost use Rattle.target_texts.specs.Returned.{returns_of};
ghost use Rattle.target_texts.specs.Seen.{seen_lists};
ghost use Rattle.target_body.specs.Left.{bucket_frames, children_frames};
ghost use Rattle.target_body.specs.Moments.{Continues, Plays, moment, player};
ghost use Rattle.target_body.specs.Pieces.{
  bucket_by,
  chosen_or_run,
  decided,
  lists_at,
  number_of,
  on_old,
  or_failed,
  treated,
  word_of,
};
ghost use Rattle.target_body.specs.Returned.{items_if, returned};
ghost use Rattle.target_body.specs.Seen.{ended, seen_chooser, seen_run, seen_state};
ghost use Rattle.target_body.specs.States.{with_decision};
ghost use Rattle.target_body.specs.Work.{done, followed_by, unless_stopped};

use crate::children::BucketContext;
use crate::frames::{AtBucket, AtTask};
use crate::run_context::RunContext;
use crate::state::State;
use crate::steps::{Ending, Step};
use build_world::{EvalFault, PlacedElement};
use element_texts::ElementContext;
use msb_expand::Bucket;
use msb_files::{FileView, Journal};
use msb_values::{Copied, Item, List, Name, NoMemory, Scope, SharedItems};
use result_cache::Decision;
use std::alloc::Global;
use target_incremental::{Choice, decide};
use target_texts::{Lists, TargetElement, returns_of};
use task_trait::CountedTools;

/// A bucket of the target, and what is decided of it; of a target that takes its items one by one,
/// also their type and the bucket's items. (How to build incrementally.)
#[derive(Drop)]
pub(crate) struct Piece {
    pub(crate) bucket: Bucket,
    pub(crate) choice: Choice,
    pub(crate) items: Option<(Name, List<Item>)>,
}

impl State {
    /// Takes a bucket of the target, which sees the scope as the target found it. (MSBuild
    /// batching.)
    pub(crate) fn bucket<T: CountedTools>(
        &mut self,
        context: &RunContext<'_>,
        found: &Scope,
        bucket: Bucket,
        tools: &mut T,
        journal: &mut Journal,
    ) -> Result<Step<AtBucket>, NoMemory>
        ensures plays { IfOk result (λ step. let run = seen_run context.now in
            Plays (bucket_frames run) (player context.now.id.now T.answer)
            (bucket_by (seen_chooser context.now) run found.now bucket)
            (moment self.old journal.old (T.calls tools.old)) step
            (moment self.new journal.new (T.calls tools.new))) }
        ensures begun { BeginsWith (T.calls tools.old) (T.calls tools.new) }
    {
        self.enter(context.alloc, found, &bucket)?;
        match self.lists(&*context, &bucket, &*journal) {
            Ok(lists) => self.piece(context, bucket, lists, tools, journal),
            Err(fault) => {
                self.note_fault(context.alloc, &fault)?;
                self.add_decision(Decision::Failed)?;
                Ok(Step::Over(Ending::Faulted))
            }
        }
    }

    // The lists of a target that has both Inputs and Outputs. (How to build incrementally.)
    fn lists<'x>(
        &'x self,
        context: &'x RunContext<'x>,
        bucket: &'x Bucket,
        journal: &'x Journal,
    ) -> Result<Option<Lists>, EvalFault>
        ensures { GivesFault (option_map seen_lists) result
            (lists_at (seen_run context.entry.now) bucket.entry.now
            (seen_state self.entry.now journal.entry.now)) }
    {
        let view = FileView::of(&context.world.tree, journal);
        let target = TargetElement {
            context: ElementContext::of_items(&view, context.project(), &self.scope),
            element: PlacedElement::of(&context.target.at),
        };
        Lists::of(context.alloc, &target, bucket)
    }

    fn piece<T: CountedTools>(
        &mut self,
        context: &RunContext<'_>,
        bucket: Bucket,
        lists: Option<Lists>,
        tools: &mut T,
        journal: &mut Journal,
    ) -> Result<Step<AtBucket>, NoMemory>
        ensures plays { IfOk result (λ step. let run = seen_run context.now in
            Plays (bucket_frames run) (player context.now.id.now T.answer)
            (λ s. followed_by
            (chosen_or_run (seen_chooser context.now) run bucket s (option_map seen_lists lists))
            (λ end. done (or_failed end)))
            (moment self.old journal.old (T.calls tools.old)) step
            (moment self.new journal.new (T.calls tools.new))) }
        ensures begun { BeginsWith (T.calls tools.old) (T.calls tools.new) }
    {
        match lists {
            Some(lists) => {
                let choice = choice_of(context, &lists, journal)?;
                let piece = Piece {
                    bucket,
                    choice,
                    items: lists.items,
                };
                self.run_bucket(context, piece, tools, journal)
            }
            None => {
                let piece = Piece {
                    bucket,
                    choice: Choice::Run,
                    items: None,
                };
                self.run_bucket(context, piece, tools, journal)
            }
        }
    }

    fn run_bucket<T: CountedTools>(
        &mut self,
        context: &RunContext<'_>,
        piece: Piece,
        tools: &mut T,
        journal: &mut Journal,
    ) -> Result<Step<AtBucket>, NoMemory>
        ensures plays { IfOk result (λ step. let run = seen_run context.now in
            Plays (bucket_frames run) (player context.now.id.now T.answer)
            (λ s. followed_by (decided run piece.bucket piece.choice piece.items s)
            (λ end. done (or_failed end)))
            (moment self.old journal.old (T.calls tools.old)) step
            (moment self.new journal.new (T.calls tools.new))) }
        ensures begun { BeginsWith (T.calls tools.old) (T.calls tools.new) }
    {
        let step = self.treat(context, &piece.choice, &piece.items, tools, journal)?;
        self.after_children(context, piece, step, journal)
    }

    // The children under what is decided: where there is nothing to do they are passed over.
    fn treat<T: CountedTools>(
        &mut self,
        context: &RunContext<'_>,
        choice: &Choice,
        items: &Option<(Name, List<Item>)>,
        tools: &mut T,
        journal: &mut Journal,
    ) -> Result<Step<AtTask>, NoMemory>
        ensures plays { IfOk result (λ step. let run = seen_run context.now in
            Plays (children_frames run choice.now) (player context.now.id.now T.answer)
            (treated run choice.now items.now) (moment self.old journal.old (T.calls tools.old))
            step (moment self.new journal.new (T.calls tools.new))) }
        ensures begun { BeginsWith (T.calls tools.old) (T.calls tools.new) }
    {
        let bucket_context = BucketContext {
            run: *context,
            choice,
        };
        match choice {
            Choice::Run | Choice::Skip => self.children(&bucket_context, 0, tools, journal),
            Choice::Nothing => Ok(Step::Over(Ending::Fine)),
            Choice::Part(old) => {
                self.narrow(context.alloc, items, old)?;
                self.children(&bucket_context, 0, tools, journal)
            }
        }
    }

    // Tasks see of the type its items that are out of date.
    fn narrow(
        &mut self,
        alloc: Global,
        items: &Option<(Name, List<Item>)>,
        old: &List<Item>,
    ) -> Result<(), NoMemory>
        ensures narrowed { OnOk result ((journal : Files)
            → seen_state self.new journal ≡ on_old items.now old.now
            (seen_state self.old journal)) }
        ensures kept { OnOk result (self.new.segments ≡ self.old.segments) }
    {
        if let Some((kind, _)) = items {
            let mut scope = self.scope.copy()?;
            scope
                .items
                .insert(kind.copy()?, SharedItems::of(alloc, old.copy()?)?)?;
            self.task_scope = Some(scope);
        }
        Ok(())
    }

    // Goes on behind the children of a bucket.
    pub(crate) fn after_children(
        &mut self,
        context: &RunContext<'_>,
        piece: Piece,
        step: Step<AtTask>,
        journal: &Journal,
    ) -> Result<Step<AtBucket>, NoMemory>
        ensures { (answer : List ℕ → ToolInput → ToolAnswer) (tools : List (List ℕ × ToolInput))
            → IfOk result (λ step_then. let run = seen_run context.now in
            Continues (children_frames run piece.choice) (bucket_frames run)
            (player context.now.id.now answer)
            (λ end.
            followed_by
            (unless_stopped end
            (λ s. done
            (map_ok (with_decision (word_of piece.choice piece.items))
            (returned run piece.bucket s))))
            (λ end. done (or_failed end))) step (moment self.old journal.now tools) step_then
            (moment self.new journal.now tools)) }
    {
        match step {
            Step::Over(ending) => {
                let word = word_of(&piece.choice, &piece.items);
                Ok(Step::Over(self.end_bucket(context, &piece.bucket, word, ending, journal)?))
            }
            Step::Waits(task) => Ok(Step::Waits(AtBucket {
                bucket: piece.bucket,
                choice: piece.choice,
                items: piece.items,
                task,
            })),
        }
    }

    // What the bucket returns, unless the run stops in it, and the word for it.
    fn end_bucket(
        &mut self,
        context: &RunContext<'_>,
        bucket: &Bucket,
        word: Decision,
        ending: Ending,
        journal: &Journal,
    ) -> Result<Ending, NoMemory>
        ensures ended { IfOk result
            (λ ending_then. ended ending_then (seen_state self.new journal.now)
            ≡ or_failed
            (and_then (ended ending (seen_state self.old journal.now))
            (λ s. map_ok (with_decision word) (returned (seen_run context.now) bucket.now s)))) }
        ensures kept { OnOk result (self.new.segments ≡ self.old.segments) }
    {
        match ending {
            Ending::Fine => self.return_items(context, bucket, word, journal),
            Ending::Faulted | Ending::Failed => {
                self.add_decision(Decision::Failed)?;
                Ok(ending)
            }
        }
    }

    fn return_items(
        &mut self,
        context: &RunContext<'_>,
        bucket: &Bucket,
        word: Decision,
        journal: &Journal,
    ) -> Result<Ending, NoMemory>
        ensures ended { IfOk result (λ ending. ended ending (seen_state self.new journal.now)
            ≡ or_failed
            (map_ok (with_decision word)
            (returned (seen_run context.now) bucket.now (seen_state self.old journal.now)))) }
        ensures kept { OnOk result (self.new.segments ≡ self.old.segments) }
    {
        match self.read_returned(&*context, &*bucket, &*journal) {
            Ok(items) => {
                self.items.append(context.alloc, items)?;
                self.add_decision(word)?;
                Ok(Ending::Fine)
            }
            Err(fault) => {
                self.note_fault(context.alloc, &fault)?;
                self.add_decision(Decision::Failed)?;
                Ok(Ending::Faulted)
            }
        }
    }

    fn read_returned<'x>(
        &'x self,
        context: &'x RunContext<'x>,
        bucket: &'x Bucket,
        journal: &'x Journal,
    ) -> Result<List<Item>, EvalFault>
        ensures { GivesFault (λ items. items) result
            (items_if (seen_run context.entry.now) bucket.entry.now
            (seen_state self.entry.now journal.entry.now)
            (returns_of (seen_run context.entry.now).target)) }
    {
        let Some(written) = returns_of(context.target) else {
            return Ok(List::new(context.alloc));
        };
        let view = FileView::of(&context.world.tree, journal);
        let target = TargetElement {
            context: ElementContext::of_items(&view, context.project(), &self.scope),
            element: PlacedElement::of(&context.target.at),
        };
        target.returned_items(context.alloc, bucket, &self.items, written)
    }
}

fn choice_of(context: &RunContext<'_>, lists: &Lists, journal: &Journal) -> Result<Choice, NoMemory>
    ensures { IfOk result
        (λ choice. choice
        ≡ decision (record { files = context.now.world.now.tree.files; journal = journal.now })
        lists.now.inputs lists.now.outputs (option_map (λ typed. typed.1) lists.now.items)
        context.now.world.now.mode) }
{
    let view = FileView::of(&context.world.tree, journal);
    let mode = context.world.mode;
    decide(
        context.alloc,
        &view,
        &lists.inputs,
        &lists.outputs,
        typed_items(lists),
        mode,
    )
}

fn typed_items(lists: &Lists) -> Option<&List<Item>>
    ensures { option_copied result ≡ option_map (λ typed. typed.1) lists.now.items }
{
    match &lists.items {
        Some((_, items)) => Some(items),
        None => None,
    }
}

fn word_of(choice: &Choice, items: &Option<(Name, List<Item>)>) -> Decision
    ensures { result ≡ word_of choice.now items.now }
{
    match choice {
        Choice::Run => Decision::Ran,
        Choice::Skip => Decision::UpToDate,
        Choice::Nothing => Decision::NothingToDo,
        Choice::Part(old) => Decision::Part(old.len() as u64, number_of(items)),
    }
}

fn number_of(items: &Option<(Name, List<Item>)>) -> u64
    ensures { result ≡ number_of items.now }
{
    match items {
        Some((_, items)) => items.len() as u64,
        None => 0,
    }
}
