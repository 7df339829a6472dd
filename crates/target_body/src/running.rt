//! The buckets of a target, one after the other. (Target element; MSBuild batching.)

ghost use Rattle.std.specs.Prelude.{◌≡◌, IfOk};
ghost use Rattle.build_world.specs.Answers.{GivesFault};
ghost use Rattle.task_trait.specs.Tools.{BeginsWith};
ghost use Rattle.target_texts.specs.Batched.{target_buckets};
ghost use Rattle.target_body.specs.Bodies.{buckets_by};
ghost use Rattle.target_body.specs.Left.{bucket_frames, buckets_frames};
ghost use Rattle.target_body.specs.Moments.{Continues, Plays, moment, player};
ghost use Rattle.target_body.specs.Pieces.{bucket_by};
ghost use Rattle.target_body.specs.Seen.{seen_chooser, seen_run, seen_state};
ghost use Rattle.target_body.specs.States.{context_in};
ghost use Rattle.target_body.specs.Work.{each_in_turn, unless_stopped};

use crate::frames::{AtBucket, AtRun};
use crate::later::Buckets;
use crate::run_context::RunContext;
use crate::state::State;
use crate::steps::{Ending, Step};
use build_world::{EvalFault, PlacedElement};
use element_texts::ElementContext;
use msb_expand::Bucket;
use msb_files::{FileView, Journal};
use msb_values::{List, NoMemory, Scope};
use result_cache::Decision;
use std::alloc::Global;
use target_texts::TargetElement;
use task_trait::CountedTools;

/// The buckets of a target that are still to come, and the scope as the target found it.
#[derive(Drop)]
pub(crate) struct TargetBuckets {
    pub(crate) found: Scope,
    pub(crate) later: Buckets,
}

impl State {
    /// Takes the target bucket by bucket, or notes why there is none to form. (MSBuild batching.)
    pub(crate) fn begin<T: CountedTools>(
        &mut self,
        context: &RunContext<'_>,
        found: Scope,
        tools: &mut T,
        journal: &mut Journal,
    ) -> Result<Step<AtRun>, NoMemory>
        ensures plays { IfOk result (λ step. let run = seen_run context.now in
            let choose = seen_chooser context.now in
            Plays (buckets_frames choose run) (player context.now.id.now T.answer)
            (buckets_by choose run found)
            (moment self.old journal.old (T.calls tools.old)) step
            (moment self.new journal.new (T.calls tools.new))) }
        ensures begun { BeginsWith (T.calls tools.old) (T.calls tools.new) }
    {
        match self.target_buckets(&*context, &*journal) {
            Ok(buckets) => { self.buckets(context, found, Buckets::of(buckets), tools, journal) }
            Err(fault) => {
                self.note_fault(context.alloc, &fault)?;
                self.add_decision(Decision::Failed)?;
                Ok(Step::Over(Ending::Faulted))
            }
        }
    }

    fn target_buckets<'x>(
        &'x self,
        context: &'x RunContext<'x>,
        journal: &'x Journal,
    ) -> Result<List<Bucket>, EvalFault>
        ensures { GivesFault (λ buckets. buckets) result
            (target_buckets
            (context_in (seen_run context.entry.now) (seen_state self.entry.now journal.entry.now)
            self.entry.now.scope) (seen_run context.entry.now).target.element) }
    {
        let view = FileView::of(&context.world.tree, journal);
        let target = TargetElement {
            context: ElementContext::of_items(&view, context.project(), &self.scope),
            element: PlacedElement::of(&context.target.at),
        };
        target.buckets(context.alloc)
    }

    fn buckets<T: CountedTools>(
        &mut self,
        context: &RunContext<'_>,
        found: Scope,
        later: Buckets,
        tools: &mut T,
        journal: &mut Journal,
    ) -> Result<Step<AtRun>, NoMemory>
        ensures plays { IfOk result (λ step. let run = seen_run context.now in
            let choose = seen_chooser context.now in
            Plays (buckets_frames choose run) (player context.now.id.now T.answer)
            (λ s. each_in_turn (bucket_by choose run found) later s)
            (moment self.old journal.old (T.calls tools.old)) step
            (moment self.new journal.new (T.calls tools.new))) }
        ensures begun { BeginsWith (T.calls tools.old) (T.calls tools.new) }
    {
        let mut later = later;
        while let Some(bucket) = later.next() {
            match self.bucket(context, &found, bucket, tools, journal)? {
                Step::Over(Ending::Fine) => {}
                Step::Over(Ending::Faulted) => return Ok(Step::Over(Ending::Faulted)),
                Step::Over(Ending::Failed) => return Ok(Step::Over(Ending::Failed)),
                Step::Waits(at) => return Ok(Step::Waits(AtRun { found, at, later })),
            }
        }
        Ok(Step::Over(Ending::Fine))
    }

    pub(crate) fn after_bucket<T: CountedTools>(
        &mut self,
        context: &RunContext<'_>,
        left: TargetBuckets,
        step: Step<AtBucket>,
        tools: &mut T,
        journal: &mut Journal,
    ) -> Result<Step<AtRun>, NoMemory>
        ensures goes { IfOk result (λ step_then. let run = seen_run context.now in
            let choose = seen_chooser context.now in
            Continues (bucket_frames run) (buckets_frames choose run)
            (player context.now.id.now T.answer)
            (λ end. unless_stopped end (each_in_turn (bucket_by choose run left.found) left.later))
            step
            (moment self.old journal.old (T.calls tools.old)) step_then
            (moment self.new journal.new (T.calls tools.new))) }
        ensures begun { BeginsWith (T.calls tools.old) (T.calls tools.new) }
    {
        let TargetBuckets { found, later } = left;
        match step {
            Step::Over(Ending::Fine) => self.buckets(context, found, later, tools, journal),
            Step::Over(Ending::Faulted) => Ok(Step::Over(Ending::Faulted)),
            Step::Over(Ending::Failed) => Ok(Step::Over(Ending::Failed)),
            Step::Waits(at) => Ok(Step::Waits(AtRun { found, at, later })),
        }
    }
}
