ghost use Rattle.std.specs.Prelude.{◌≡◌, [], ◌∷◌, IfOk, IfSome, IsSome, OnOk, Some};
ghost use Rattle.build_meaning.specs.SoFar.{nothing_yet, recorded};
ghost use Rattle.build_world.specs.Instances.{seen_instance};
ghost use Rattle.task_trait.specs.Tools.{BeginsWith};
ghost use Rattle.target_body.specs.Standings.{Fits, standing_in};
ghost use Rattle.target_body.specs.States.{target_named};
ghost use Rattle.request_machine.specs.RunStops.{
  IsFinished,
  IsRunStop,
  Plays,
  Stops,
  Resumes,
  IsWaiting,
};
ghost use Rattle.request_machine.specs.Runs.{run_in};
ghost use Rattle.request_machine.specs.Worlds.{body_if, nothing_made};
ghost use Rattle.result_cache.specs.Replay.{replay};
ghost use Rattle.result_cache.specs.Table.{found};
ghost use Rattle.request_machine.specs.Answered.{HasRecord, IsRecord};
ghost use Rattle.request_machine.specs.Positions.{halt_at};

use crate::context::Project;
use crate::snapshots::Snapshots;
use crate::stage::{HeldBody, RunState, Uses, Visit};
use build_scheduler::Ask;
use build_world::World;
use msb_files::Journal;
use msb_instance::InstanceRef;
use msb_values::{Copied, List, NoMemory, Scope};
use result_cache::{Found, Record, RecordRef, RequestResult, RunRef, Table};
use std::alloc::Global;
use target_body::{Body, BodyAsk};
use task_trait::CountedTools;

/// A run of a target of an evaluated project, which a request makes.
#[derive(Clone, Copy)]
pub struct RunMaker<'a> {
    pub alloc: Global,
    pub world: &'a World,
    pub instance: &'a InstanceRef,
    pub run: &'a RunRef,
}

/// Where the body of a run has stopped, and what the request asks then.
#[derive(Drop)]
pub struct RunStop<T> {
    pub at: RunState<T>,
    pub ask: Ask,
}

impl<'a> RunMaker<'a> {
    /// The body begins in this scope, and goes on until it calls requests or is over. (Target
    /// element.)
    pub fn begin<T: CountedTools>(
        &self,
        tools: &mut T,
        scope: &Scope,
        journal: &mut Journal,
    ) -> Result<RunStop<T>, NoMemory>
        requires { IsSome
            (target_named (seen_instance self.now.instance.now).targets self.now.run.now.target) }
        ensures goes { IfOk result
            (let target = target_named (seen_instance self.now.instance.now).targets
            self.now.run.now.target in
            Stops T.answer T.calls self.now.world.now self.now.run.now target
            (body_if self.now.world.now self.now.run.now target scope.now journal.old) nothing_yet
            journal.old journal.new tools.old tools.new) }
        ensures tools { BeginsWith (T.calls tools.old) (T.calls tools.new) }
        ensures run { IfOk result
            (λ run_stop. run_in self.now.run.now run_stop.at ≡ self.now.run.now) }
    {
        let body = Body::start(self.alloc, self.run, scope)?;
        let none = List::new(self.alloc);
        self.advance(tools, body, &Snapshots::new(), journal, &none)
    }

    /// The body goes on by the results that have come, until it calls requests or is over. (Target
    /// element; MSBuild task.)
    pub fn advance<T: CountedTools>(
        &self,
        tools: &mut T,
        body: Body,
        uses: &Uses<T>,
        journal: &mut Journal,
        results: &List<RequestResult>,
    ) -> Result<RunStop<T>, NoMemory>
        requires run { body.run ≡ self.now.run.now }
        requires target { IsSome
            (target_named (seen_instance self.now.instance.now).targets self.now.run.now.target) }
        requires fits { IfSome
            (target_named (seen_instance self.now.instance.now).targets self.now.run.now.target)
            (λ target.
            Fits (standing_in self.now.world.now self.now.run.now target body) results.now) }
        ensures goes { IfOk result
            (λ run_stop.
            IfSome (target_named (seen_instance self.now.instance.now).targets
            self.now.run.now.target)
            (λ target.
            Plays T.answer T.calls self.now.world.now self.now.run.now target
            (standing_in self.now.world.now self.now.run.now target body) results.now journal.old
            journal.new tools.old tools.new uses.now run_stop)) }
        ensures tools { BeginsWith (T.calls tools.old) (T.calls tools.new) }
        ensures run { IfOk result
            (λ run_stop. run_in self.now.run.now run_stop.at ≡ self.now.run.now) }
    {
        let mut body = body;
        let before = note(tools);
        let instance = self.instance.get();
        let ask = body.advance(self.world, tools, instance, journal, results)?;
        let uses = uses.and(&before, &note(tools));
        self.stop(body, uses, ask)
    }

    fn stop<T>(&self, body: Body, uses: Uses<T>, ask: BodyAsk) -> Result<RunStop<T>, NoMemory>
        ensures { IfOk result (IsRunStop self.now.run.now body uses ask) }
    {
        match ask {
            BodyAsk::Call(keys) => Ok(RunStop {
                at: RunState::Called(HeldBody::of(self.alloc, body)?, uses),
                ask: Ask::Call(keys),
            }),
            BodyAsk::Finished(run_record) => self.finish(uses, run_record),
        }
    }

    fn finish<T>(&self, uses: Uses<T>, run_record: Record) -> Result<RunStop<T>, NoMemory>
        ensures { IfOk result (IsFinished self.now.run.now uses run_record) }
    {
        let run_record = RecordRef::of_run(self.alloc, self.run, run_record)?;
        Ok(RunStop {
            ask: Ask::Finished(self.run.get().copy()?, run_record.copy()?),
            at: RunState::Made(run_record, uses),
        })
    }

    /// Nothing is made of a target that the project has not; the order asks for none.
    pub fn make_nothing<T>(&self, uses: Uses<T>) -> Result<RunStop<T>, NoMemory>
        ensures { IfOk result (IsFinished self.now.run.now uses (recorded nothing_made [])) }
    {
        let run_record = Record {
            ok: true,
            decisions: List::new(self.alloc),
            items: List::new(self.alloc),
            changes: List::new(self.alloc),
            notes: List::new(self.alloc),
            segments: List::new(self.alloc),
        };
        self.finish(uses, run_record)
    }
}

// The tools as they are now.
fn note<T>(tools: &T) -> Snapshots<T, u8>
    ensures { result.items ≡ (tools.now, 0) ∷ [] }
{
    Snapshots::new().and(tools, &0)
}

impl<T: CountedTools> Visit<T> {
    /// Makes the run that is wanted, until its body calls requests or is over. (Target element.)
    pub fn make(
        &self,
        alloc: Global,
        world: &World,
        tools: &mut T,
        journal: &mut Journal,
    ) -> Result<RunStop<T>, NoMemory>
        ensures goes { IfOk result
            (let target = target_named (seen_instance self.now.instance).targets
            self.now.run.target in
            Stops T.answer T.calls world.now self.now.run target
            (body_if world.now self.now.run target self.now.state.scope journal.old) nothing_yet
            journal.old journal.new tools.old tools.new) }
        ensures tools { BeginsWith (T.calls tools.old) (T.calls tools.new) }
        ensures run { IfOk result (λ run_stop. run_in self.now.run run_stop.at ≡ self.now.run) }
    {
        let run = RunRef::new(alloc, &self.run)?;
        let maker = RunMaker {
            alloc,
            world,
            instance: &self.instance,
            run: &run,
        };
        let project = Project {
            tree: &world.tree,
            key: &self.run.instance,
            instance: &self.instance,
        };
        match project.target(&self.run.target) {
            Some(_) => maker.begin(tools, self.state.scope(), journal),
            None => maker.make_nothing(Snapshots::new()),
        }
    }

    /// The body goes on by the results of its calls. (MSBuild task.)
    pub fn resume(
        &self,
        alloc: Global,
        world: &World,
        tools: &mut T,
        journal: &mut Journal,
        results: &List<RequestResult>,
    ) -> Result<RunStop<T>, NoMemory>
        requires { IsWaiting
            (halt_at T.calls world.now self.now.run
            (target_named (seen_instance self.now.instance).targets self.now.run.target)
            self.now.at) results.now }
        ensures goes { IfOk result
            (let target = target_named (seen_instance self.now.instance).targets
            self.now.run.target in
            Resumes T.answer T.calls world.now self.now.run target
            (halt_at T.calls world.now self.now.run target self.now.at) results.now journal.old
            journal.new tools.old tools.new) }
        ensures tools { BeginsWith (T.calls tools.old) (T.calls tools.new) }
        ensures run { IfOk result (λ run_stop. run_in self.now.run run_stop.at ≡ self.now.run) }
    {
        match &self.at {
            RunState::Called(body, uses) => {
                let copy = body.copy()?;
                let run = copy.run()?;
                let maker = RunMaker {
                    alloc,
                    world,
                    instance: &self.instance,
                    run: &run,
                };
                maker.advance(tools, copy, uses, journal, results)
            }
            RunState::Wanted | RunState::Made(..) => unreachable!(),
        }
    }
}

impl<T> Visit<T> {
    /// The record of its run, all of which the journal has then: another request has made it, or
    /// its own body. (Target build order.)
    pub fn record(
        &self,
        alloc: Global,
        learnt: &Table,
        run: &RunRef,
        journal: &mut Journal,
    ) -> Result<RecordRef, NoMemory>
        requires { HasRecord learnt.now.finished run.now journal.old self.now.at }
        ensures { IfOk result
            (IsRecord learnt.now.finished run.now journal.old journal.new self.now.at) }
    {
        match &self.at {
            RunState::Wanted => replay_record(alloc, learnt, journal, run),
            RunState::Made(run_record, _) => {
                journal.add_end(alloc, run, run_record.copy()?)?;
                run_record.copy()
            }
            RunState::Called(..) => unreachable!(),
        }
    }
}

// The record of a run that another request has made.
fn replay_record(
    alloc: Global,
    learnt: &Table,
    journal: &mut Journal,
    run: &RunRef,
) -> Result<RecordRef, NoMemory>
    requires known { IsSome (found learnt.now.finished run.now) }
    requires replays { IsSome (replay learnt.now.finished run.now journal.old) }
    ensures known { IfOk result
        (λ run_record. found learnt.now.finished run.now ≡ Some run_record) }
    ensures replays { OnOk result (replay learnt.now.finished run.now journal.old
        ≡ Some journal.new) }
{
    match learnt.find_ref(run) {
        Found::Done(run_record) => {
            journal.replay(alloc, learnt, run)?;
            run_record.copy()
        }
        Found::Absent | Found::Begun(_) => unreachable!(),
    }
}
