ghost use Rattle.std.specs.Prelude.{◌≡◌, drop, true};
ghost use Rattle.request_machine.specs.Stages.{instance_in};
ghost use Rattle.request_machine.specs.Plain.{IsPlainProject};

use crate::after_run::{AfterRun, OrderStep};
use crate::beginning::{Beginning, begin};
use crate::context::{Project, RequestContext};
use crate::former::{Former, replace_body};
use crate::replayed::{Replayed, journal_after, with_runs};
use crate::run::RunStop;
use crate::shared::SharedList;
use crate::stage::{Stage, Visit};
use crate::walk::NodeContext;
use build_scheduler::{Answer, Ask};
use build_world::World;
use msb_files::Journal;
use msb_instance::Instances;
use msb_values::{Copied, List, NoMemory};
use result_cache::{Record, RequestKey, RequestResult, RunRef, Table};
use std::alloc::Global;
use std::mem;
use task_trait::CountedTools;

/// A request of a build, with what it knows of files and runs.
pub struct Request<'a, T> {
    pub alloc: Global,
    pub world: &'a World,
    pub key: RequestKey,
    pub journal: Journal,
    /// The runs that it has made or used, in order.
    pub runs: SharedList<RunRef>,
    pub stage: Stage<T>,
    /// Whether its project is known to be plain.
    pub plain: bool,
    ghost own_run: { instance_in key.instance stage ≡ key.instance },
    ghost known: { plain ≡ true → IsPlainProject world.now.tree.files key },
}

// A drop that is written out is proved here alone.
impl<'a, T> Drop for Request<'a, T> {
    fn drop(self) {
        let Request {
            alloc: _,
            world: _,
            key: _,
            journal: _,
            runs: _,
            stage: _,
            plain: _,
        } = self;
    }
}

/// What a request asks that an answer has taken on, and what the answer has replaced.
#[derive(Drop)]
pub struct Advanced<T> {
    pub ask: Ask,
    pub former: Former<T>,
}

/// A request that begins, and what it asks.
#[derive(Drop)]
struct FirstAsk<T> {
    stage: Stage<T>,
    plain: bool,
    ask: Ask,
}

/// Where the body of its run has stopped, and the journal then.
#[derive(Drop)]
struct StoppedBody<T> {
    run_stop: RunStop<T>,
    journal: Journal,
}

// The entries behind the first ones of this number.
fn runs_behind(runs: &[RunRef], count: usize) -> &[RunRef]
    ensures { result.now ≡ drop count runs.now }
{
    match runs.get(count..) {
        Some(left) => left,
        None => &[],
    }
}

impl<'a, T> Request<'a, T> {
    ghost use Rattle.std.specs.Prelude.{◌++◌, ◌∷◌, [], Some, IfOk, IsSome, length};
    ghost use Rattle.result_cache.specs.Replay.{replay_all};
    ghost use Rattle.build_world.specs.Instances.{seen_instance};
    ghost use Rattle.msb_instance.specs.Kept.{AreEvaluated};
    ghost use Rattle.request_machine.specs.Answered.{HasMade, HasRecord};
    ghost use Rattle.request_machine.specs.Asks.{AsksAt};
    ghost use Rattle.request_machine.specs.Stages.{StandsAt, ended_stage};
    ghost use Rattle.request_machine.specs.OrderSteps.{Follows};
    ghost use Rattle.request_machine.specs.AfterRuns.{ComesAfter, IsAfter};
    ghost use Rattle.request_machine.specs.declared.stage.Stage.TheVariants.{NotBegun};
    ghost use Rattle.request_machine.specs.Plain.{is_plain};
    ghost use Rattle.request_machine.specs.Worlds.{instances_of, project_of, walk_of};

    /// A request that begins with this journal.
    pub fn new(alloc: Global, world: &'a World, key: RequestKey, journal: Journal) -> Request<'a, T>
        ensures world { result.world ≡ world.entry }
        ensures key { result.key ≡ key }
        ensures journal { result.journal ≡ journal }
        ensures runs { result.runs ≡ [] }
        ensures stage { result.stage ≡ NotBegun }
    {
        Request {
            alloc,
            world,
            key,
            journal,
            runs: SharedList::new(alloc),
            stage: Stage::NotBegun,
            plain: false,
        }
    }

    /// A request that is over as this one is, with the same journal.
    pub fn copy_end(&self) -> Result<Request<'a, T>, NoMemory>
        ensures world { IfOk result (λ ended. ended.world.now ≡ self.now.world.now) }
        ensures key { IfOk result (λ ended. ended.key ≡ self.now.key) }
        ensures journal { IfOk result (λ ended. ended.journal ≡ self.now.journal) }
        ensures runs { IfOk result (λ ended. ended.runs ≡ self.now.runs) }
        ensures stage { IfOk result (λ ended. ended.stage ≡ ended_stage self.now.stage) }
    {
        let stage = self.stage.copy_end(self.alloc)?;
        Ok(Request {
            alloc: self.alloc,
            world: self.world,
            key: self.key.copy()?,
            journal: self.journal.copy()?,
            runs: self.runs.copy()?,
            stage,
            plain: self.plain,
        })
    }

    /// A request that is over as that one is, from where this one stands: it has replayed the
    /// records of the runs that are left to it.
    pub fn end_as(&self, end: &Request<'a, T>, table: &Table) -> Result<Request<'a, T>, NoMemory>
        requires replays { IsSome (replay_all table.now.finished
            (drop (length self.now.runs) end.now.runs) self.now.journal) }
        ensures world { IfOk result (λ ended. ended.world.now ≡ self.now.world.now) }
        ensures key { IfOk result (λ ended. ended.key ≡ self.now.key) }
        ensures journal { IfOk result (λ ended. replay_all table.now.finished
            (drop (length self.now.runs) end.now.runs) self.now.journal ≡ Some ended.journal) }
        ensures runs { IfOk result (λ ended. ended.runs ≡ end.now.runs) }
        ensures stage { IfOk result (λ ended. ended.stage ≡ ended_stage end.now.stage) }
    {
        let runs = end.runs.to_list(self.alloc)?;
        let left = runs_behind(runs.as_slice(), self.runs.len());
        let journal = with_runs(self.alloc, &self.journal, table, left)?;
        let stage = end.stage.copy_end(self.alloc)?;
        Ok(Request {
            alloc: self.alloc,
            world: self.world,
            key: self.key.copy()?,
            journal,
            runs: end.runs.copy()?,
            stage,
            plain: self.plain,
        })
    }

    /// The runs that it has made or used, and its journal. This takes no memory.
    pub fn into_replayed(self) -> Replayed
        ensures runs { result.runs ≡ self.entry.runs }
        ensures journal { result.journal ≡ self.entry.journal }
    {
        let Request {
            alloc: _,
            world: _,
            key: _,
            journal,
            runs,
            stage: _,
            plain: _,
        } = self;
        Replayed { runs, journal }
    }

    // Where it stands when it begins in a world, whether it is plain, and what it asks then.
    fn ask_first(&self, world: &World, instances: &mut Instances) -> Result<FirstAsk<T>, NoMemory>
        requires { AreEvaluated world.now.tree.files instances.old }
        ensures stands { IfOk result (λ first. StandsAt world.now self.now.key self.now.journal
            (walk_of world.now self.now.key self.now.journal) first.stage) }
        ensures plain { IfOk result
            (λ first. first.plain ≡ is_plain (instances_of world.now.tree.files self.now.key)) }
        ensures asks { IfOk result (λ first. AsksAt self.now.runs first.stage first.ask) }
        ensures kept { AreEvaluated world.now.tree.files instances.new }
    {
        let Beginning { stage, plain } = begin(
            self.alloc,
            world,
            instances,
            &self.key,
            &self.journal,
        )?;
        let ask = stage.ask(self.alloc, &self.runs)?;
        Ok(FirstAsk { stage, plain, ask })
    }

    // What comes after its run.
    fn after_run(&self, learnt: &Table) -> Result<AfterRun, NoMemory>
        requires { HasMade learnt.now.finished self.now.journal self.now.stage }
        ensures { IfOk result
            (IsAfter self.now.world.now self.now.key learnt.now.finished self.now.journal
            self.now.runs self.now.stage) }
    {
        match &self.stage {
            Stage::Visits(visit) => self.after_visit(learnt, visit),
            Stage::NotBegun | Stage::Over(_) => unreachable!(),
        }
    }

    fn after_visit(&self, learnt: &Table, visit: &Visit<T>) -> Result<AfterRun, NoMemory>
        requires { HasRecord learnt.now.finished visit.now.run self.now.journal visit.now.at }
        ensures { IfOk result
            (ComesAfter self.now.world.now self.now.key learnt.now.finished self.now.journal
            self.now.runs visit.now) }
    {
        let run = RunRef::new(self.alloc, &visit.run)?;
        let mut journal = self.journal.copy()?;
        let run_record = visit.record(self.alloc, learnt, &run, &mut journal)?;
        let runs = self.runs_with(run_record.name_or(run))?;
        let step = self.follow(visit, &journal, run_record.get())?;
        let ask = step.ask(self.alloc, &self.key.instance, &runs)?;
        Ok(AfterRun {
            step,
            journal,
            runs,
            ask,
        })
    }

    // The runs that it has made or used, with this one.
    fn runs_with(&self, run: RunRef) -> Result<SharedList<RunRef>, NoMemory>
        ensures { IfOk result (λ runs. runs ≡ self.now.runs ++ run ∷ []) }
    {
        let mut runs = self.runs.copy()?;
        runs.push(self.alloc, run)?;
        Ok(runs)
    }

    // What follows the run of a visit, by its record and the journal then.
    fn follow(
        &self,
        visit: &Visit<T>,
        journal: &Journal,
        run_record: &Record,
    ) -> Result<OrderStep, NoMemory>
        ensures { IfOk result
            (Follows (project_of self.now.world.now self.now.key (seen_instance visit.now.instance))
            self.now.key visit.now.state journal.now visit.now.order visit.now.run.target
            run_record.now) }
    {
        let context = RequestContext {
            project: Project {
                tree: &self.world.tree,
                key: &self.key.instance,
                instance: &visit.instance,
            },
            key: &self.key,
            state: &visit.state,
            journal,
        };
        context.follow(self.alloc, &visit.order, &visit.run.target, run_record)
    }
}

impl<'a, T: CountedTools + 'a> Request<'a, T> {
    ghost use Rattle.std.specs.Prelude.{
      ◌++◌,
      [],
      false,
      true,
      map,
      IfOk,
      IfSome,
      IsSome,
      OnErr,
      OnOk,
    };
    ghost use Rattle.build_meaning.specs.SoFar.{runs_of};
    ghost use Rattle.build_scheduler.specs.Position.{answered, used_between};
    ghost use Rattle.build_scheduler.specs.declared.walker.Answer.TheVariants.{
      First,
      Go,
      Use,
      Results,
    };
    ghost use Rattle.result_cache.specs.Replay.{replay_all};
    ghost use Rattle.result_cache.specs.Table.{Records};
    ghost use Rattle.build_world.specs.Instances.{seen_instance};
    ghost use Rattle.msb_instance.specs.Kept.{AreEvaluated};
    ghost use Rattle.target_body.specs.Standings.{tool_use};
    ghost use Rattle.target_body.specs.States.{target_named};
    ghost use Rattle.task_trait.specs.Tools.{BeginsWith};
    ghost use Rattle.request_machine.specs.Answered.{Advances, HasMade, IsNext, WaitsFor, WantsRun};
    ghost use Rattle.request_machine.specs.Stages.{has_begun};
    ghost use Rattle.request_machine.specs.Former.{
      IsVisitOf,
      Replaces,
      body_before,
      position_before,
    };
    ghost use Rattle.request_machine.specs.AfterRuns.{IsVisit};
    ghost use Rattle.request_machine.specs.declared.former.Former.TheVariants.{Body};
    ghost use Rattle.request_machine.specs.StoppedBodies.{HasMadeRun, IsMade, IsResumed};
    ghost use Rattle.request_machine.specs.RunStops.{Resumes, IsWaiting};
    ghost use Rattle.request_machine.specs.Positions.{halt_at};
    ghost use Rattle.request_machine.specs.Replayed.{IsReplayed};
    ghost use Rattle.request_machine.specs.Runs.{run_in};
    ghost use Rattle.request_machine.specs.NodeContexts.{Suits};
    ghost use Rattle.request_machine.specs.WalkPosition.{request_position};
    ghost use Rattle.request_machine.specs.Worlds.{world_of};

    /// Goes on with an answer to the next ask, from a journal that is there for the runs of the
    /// first of its results. Where there is no memory, the request is as it was, and the calls of
    /// tools begin with those of before. (Target build order; MSBuild task.)
    pub fn advance(
        &mut self,
        learnt: &Table,
        replayed: &Option<Replayed>,
        site: &mut NodeContext<'a, &'a mut T>,
        answer: &Answer,
    ) -> Result<Advanced<T>, NoMemory>
        requires fits { IsSome
            (answered (world_of T.answer self.old.world.now) learnt.now.finished
            (request_position T.calls self.old) answer.now) }
        requires turn { IsNext (has_begun self.old.stage) answer.now }
        requires known { ∥ IfSome replayed.now
            (IsReplayed learnt.now.finished self.old.journal) ∥₁ }
        requires place { Suits T.answer site.old.world.now site.old.instances
            (world_of T.answer self.old.world.now) }
        ensures place { Suits T.answer site.new.world.now site.new.instances
            (world_of T.answer self.old.world.now) }
        ensures goes { IfOk result
            (λ advanced. Advances (world_of T.answer self.old.world.now) learnt.now.finished
            (request_position T.calls self.old) (request_position T.calls self.new) answer.now
            advanced.ask) }
        ensures lent { site.new.tools.ghost_name ≡ site.old.tools.ghost_name }
        ensures used { OnOk result (map tool_use (T.calls site.new.tools.now) ≡ map tool_use
            (T.calls site.old.tools.now)
            ++ used_between (request_position T.calls self.old).place
            (request_position T.calls self.new).place) }
        ensures begun { OnOk result (has_begun self.new.stage ≡ true) }
        ensures world { world_of T.answer self.new.world.now
            ≡ world_of T.answer self.old.world.now }
        ensures former { IfOk result
            (λ advanced. Replaces T.calls self.old self.new advanced.former) }
        ensures tools { BeginsWith (T.calls site.old.tools.now) (T.calls site.new.tools.now) }
        ensures err { OnErr result (self.new ≡ self.old) }
    {
        match answer {
            Answer::First => self.begin(site.world, &mut site.instances),
            Answer::Go => self.begin_run(&mut *site.tools),
            Answer::Use => self.use_record(learnt),
            Answer::Results(results) => {
                self.take_results(learnt, replayed, &mut *site.tools, results)
            }
        }
    }

    // It begins, and goes on in this world: its project is evaluated, and its order is answered.
    // (Target build order.)
    fn begin(
        &mut self,
        world: &'a World,
        instances: &mut Instances,
    ) -> Result<Advanced<T>, NoMemory>
        requires unbegun { has_begun self.old.stage ≡ false }
        requires world { world_of T.answer self.old.world.now ≡ world_of T.answer world.now }
        requires kept { AreEvaluated world.now.tree.files instances.old }
        ensures kept { AreEvaluated world.entry.now.tree.files instances.new }
        ensures goes { (table : Records)
            → IfOk result
            (λ advanced. Advances (world_of T.answer self.old.world.now) table
            (request_position T.calls self.old) (request_position T.calls self.new) First
            advanced.ask) }
        ensures used { OnOk result
            (used_between (request_position T.calls self.old).place
            (request_position T.calls self.new).place ≡ []) }
        ensures begun { OnOk result (has_begun self.new.stage ≡ true) }
        ensures world { world_of T.answer self.new.world.now
            ≡ world_of T.answer self.old.world.now }
        ensures former { IfOk result
            (λ advanced. Replaces T.calls self.old self.new advanced.former) }
        ensures err { OnErr result (self.new ≡ self.old) }
    {
        let FirstAsk { stage, plain, ask } = self.ask_first(world, instances)?;
        self.world = world;
        self.stage = stage;
        self.plain = plain;
        Ok(Advanced {
            ask,
            former: Former::NotBegun,
        })
    }

    // It makes the run that it wants. (Target element.)
    fn begin_run(&mut self, tools: &mut T) -> Result<Advanced<T>, NoMemory>
        requires { WantsRun self.old.stage }
        ensures goes { (table : Records)
            → IfOk result
            (λ advanced. Advances (world_of T.answer self.old.world.now) table
            (request_position T.calls self.old) (request_position T.calls self.new) Go
            advanced.ask) }
        ensures used { OnOk result (map tool_use (T.calls tools.new)
            ≡ map tool_use (T.calls tools.old)
            ++ used_between (request_position T.calls self.old).place
            (request_position T.calls self.new).place) }
        ensures begun { OnOk result (has_begun self.new.stage ≡ true) }
        ensures world { self.new.world ≡ self.old.world }
        ensures former { IfOk result
            (λ advanced. Replaces T.calls self.old self.new advanced.former) }
        ensures tools { BeginsWith (T.calls tools.old) (T.calls tools.new) }
        ensures err { OnErr result (self.new ≡ self.old) }
    {
        let stopped = self.make_run(tools)?;
        Ok(self.stop_body(stopped))
    }

    // The body of its run has stopped here. This takes no memory.
    fn stop_body(&mut self, stopped: StoppedBody<T>) -> Advanced<T>
        requires visits { IsVisit self.old.stage }
        requires fits { ∥ IsVisitOf self.old.key.instance
            (body_before self.old.stage stopped.run_stop.at) ∥₁ }
        ensures asks { result.ask ≡ stopped.run_stop.ask }
        ensures stands { request_position T.calls self.new
            ≡ position_before T.calls self.old (Body stopped.run_stop.at stopped.journal) }
        ensures begun { has_begun self.new.stage ≡ true }
        ensures world { self.new.world ≡ self.old.world }
        ensures former { Replaces T.calls self.old self.new result.former }
    {
        let StoppedBody { run_stop, journal } = stopped;
        let RunStop { at, ask } = run_stop;
        let at = replace_body(&mut self.stage, at);
        let journal = mem::replace(&mut self.journal, journal);
        Advanced {
            ask,
            former: Former::Body(at, journal),
        }
    }

    fn make_run(&self, tools: &mut T) -> Result<StoppedBody<T>, NoMemory>
        requires { WantsRun self.now.stage }
        ensures stopped { IfOk result
            (λ stopped. IsMade T.answer T.calls self.now.world.now self.now.stage self.now.journal
            stopped.journal tools.old tools.new stopped.run_stop) }
        ensures tools { BeginsWith (T.calls tools.old) (T.calls tools.new) }
    {
        match &self.stage {
            Stage::Visits(visit) => self.make_visit(visit, tools),
            Stage::NotBegun | Stage::Over(_) => unreachable!(),
        }
    }

    fn make_visit(&self, visit: &Visit<T>, tools: &mut T) -> Result<StoppedBody<T>, NoMemory>
        ensures stopped { IfOk result
            (λ stopped. HasMadeRun T.answer T.calls self.now.world.now visit.now self.now.journal
            stopped.journal tools.old tools.new stopped.run_stop) }
        ensures tools { BeginsWith (T.calls tools.old) (T.calls tools.new) }
    {
        let mut journal = self.journal.copy()?;
        let run_stop = visit.make(self.alloc, self.world, tools, &mut journal)?;
        Ok(StoppedBody { run_stop, journal })
    }

    // The body of its run goes on by the results of its calls, whose runs are replayed first, in
    // call order. (MSBuild task.)
    fn take_results(
        &mut self,
        learnt: &Table,
        replayed: &Option<Replayed>,
        tools: &mut T,
        results: &List<RequestResult>,
    ) -> Result<Advanced<T>, NoMemory>
        requires waits { WaitsFor T.calls self.old.world.now results.now self.old.stage }
        requires replays { IsSome
            (replay_all learnt.now.finished (runs_of results.now) self.old.journal) }
        requires known { ∥ IfSome replayed.now
            (IsReplayed learnt.now.finished self.old.journal) ∥₁ }
        ensures goes { IfOk result
            (λ advanced. Advances (world_of T.answer self.old.world.now) learnt.now.finished
            (request_position T.calls self.old) (request_position T.calls self.new)
            (Results results.now) advanced.ask) }
        ensures used { OnOk result (map tool_use (T.calls tools.new)
            ≡ map tool_use (T.calls tools.old)
            ++ used_between (request_position T.calls self.old).place
            (request_position T.calls self.new).place) }
        ensures begun { OnOk result (has_begun self.new.stage ≡ true) }
        ensures world { self.new.world ≡ self.old.world }
        ensures former { IfOk result
            (λ advanced. Replaces T.calls self.old self.new advanced.former) }
        ensures tools { BeginsWith (T.calls tools.old) (T.calls tools.new) }
        ensures err { OnErr result (self.new ≡ self.old) }
    {
        let stopped = self.resume(learnt, replayed, tools, results)?;
        Ok(self.stop_body(stopped))
    }

    fn resume(
        &self,
        learnt: &Table,
        replayed: &Option<Replayed>,
        tools: &mut T,
        results: &List<RequestResult>,
    ) -> Result<StoppedBody<T>, NoMemory>
        requires waits { WaitsFor T.calls self.now.world.now results.now self.now.stage }
        requires replays { IsSome
            (replay_all learnt.now.finished (runs_of results.now) self.now.journal) }
        requires known { ∥ IfSome replayed.now
            (IsReplayed learnt.now.finished self.now.journal) ∥₁ }
        ensures stopped { IfOk result
            (λ stopped. IsResumed T.answer T.calls self.now.world.now learnt.now.finished
            results.now self.now.stage self.now.journal stopped.journal tools.old tools.new
            stopped.run_stop) }
        ensures tools { BeginsWith (T.calls tools.old) (T.calls tools.new) }
    {
        let entries = results.as_slice();
        let journal = journal_after(self.alloc, &self.journal, replayed, learnt, entries)?;
        match &self.stage {
            Stage::Visits(visit) => self.resume_visit(visit, journal, tools, results),
            Stage::NotBegun | Stage::Over(_) => unreachable!(),
        }
    }

    fn resume_visit(
        &self,
        visit: &Visit<T>,
        journal: Journal,
        tools: &mut T,
        results: &List<RequestResult>,
    ) -> Result<StoppedBody<T>, NoMemory>
        requires { IsWaiting
            (halt_at T.calls self.now.world.now visit.now.run
            (target_named (seen_instance visit.now.instance).targets visit.now.run.target)
            visit.now.at) results.now }
        ensures goes { IfOk result (λ stopped.
            let target = target_named (seen_instance visit.now.instance).targets
            visit.now.run.target in
            Resumes T.answer T.calls self.now.world.now visit.now.run target
            (halt_at T.calls self.now.world.now visit.now.run target visit.now.at) results.now
            journal
            stopped.journal tools.old tools.new stopped.run_stop) }
        ensures own { IfOk result
            (λ stopped. run_in visit.now.run stopped.run_stop.at ≡ visit.now.run) }
        ensures tools { BeginsWith (T.calls tools.old) (T.calls tools.new) }
    {
        let mut journal = journal;
        let run_stop = visit.resume(self.alloc, self.world, tools, &mut journal, results)?;
        Ok(StoppedBody { run_stop, journal })
    }

    // It goes on with the record of its run, which another request has made, or its own body.
    // (Target build order; OnError element.)
    fn use_record(&mut self, learnt: &Table) -> Result<Advanced<T>, NoMemory>
        requires { HasMade learnt.now.finished self.old.journal self.old.stage }
        ensures goes { IfOk result
            (λ advanced. Advances (world_of T.answer self.old.world.now) learnt.now.finished
            (request_position T.calls self.old) (request_position T.calls self.new) Use
            advanced.ask) }
        ensures used { OnOk result
            (used_between (request_position T.calls self.old).place
            (request_position T.calls self.new).place ≡ []) }
        ensures begun { OnOk result (has_begun self.new.stage ≡ true) }
        ensures world { self.new.world ≡ self.old.world }
        ensures former { IfOk result
            (λ advanced. Replaces T.calls self.old self.new advanced.former) }
        ensures err { OnErr result (self.new ≡ self.old) }
    {
        let AfterRun {
            step,
            journal,
            runs,
            ask,
        } = self.after_run(learnt)?;
        let visit = step.take(&mut self.stage);
        let journal = mem::replace(&mut self.journal, journal);
        let runs = mem::replace(&mut self.runs, runs);
        Ok(Advanced {
            ask,
            former: Former::Visit(visit, journal, runs),
        })
    }
}
