ghost use Rattle.std.specs.Prelude.{◌≡◌, [], IfOk, IfSome, IsSome};
ghost use Rattle.result_cache.specs.Replay.{replay_all};
ghost use Rattle.build_outcome.specs.Outcomes.{
  status_of,
  built,
  of_text,
  stopped,
  IsOutcomeAt,
  IsStatus,
};

use crate::counted::runs_in;
use crate::replay::replay_runs;
use build_report::{show_build, show_circular, show_too_deep, show_too_many};
use build_scheduler::{Core, End, Walker};
use msb_values::{Act, List, NoMemory, Text8};
use result_cache::{RequestResult, Table};
use std::alloc::Global;
use std::mem;

/// What comes of a build. (MSBuild command-line reference.)
pub struct Outcome {
    /// 0 where the root request succeeded, 1 where it failed, and 4 where the build was stopped.
    pub status: u8,
    /// What is printed.
    pub text: Text8,
    /// The acts to do, in order; each path is there once. (MSBuild targets; Delete task.)
    pub commit: List<Act>,
    /// How many runs have ended in the journal of the root request; 0 where the build was stopped.
    pub runs: usize,
}

// A drop that is written out is proved here alone.
impl Drop for Outcome {
    fn drop(self) {
        let Outcome {
            status: _,
            text: _,
            commit: _,
            runs: _,
        } = self;
    }
}

impl Outcome {
    /// The outcome of a build whose end is told. Messages of low importance are printed only where
    /// they are asked for. Where the build ended for want of memory, or there is no memory now,
    /// there is none. (MSBuild command-line reference; MSBuild task.)
    pub fn of<W: Walker>(alloc: Global, core: &Core<W>, low: bool) -> Result<Outcome, NoMemory>
        requires { IsSome core.now.end }
        ensures outcome { IfOk result (λ outcome. ∥ IsOutcomeAt (W.world_of core.now.world) low
            core.now.history.events core.now.end outcome ∥₁) }
        ensures status { IfOk result (λ outcome. IsStatus outcome.status) }
    {
        match core.end() {
            Some(End::Root(root)) => Outcome::of_root(alloc, core.table(), root, low),
            Some(End::Circular(runs)) => Ok(Outcome::of_stop(alloc, show_circular(alloc, runs)?)),
            Some(End::TooDeep(keys)) => Ok(Outcome::of_stop(alloc, show_too_deep(alloc, keys)?)),
            Some(End::TooMany(key)) => Ok(Outcome::of_stop(alloc, show_too_many(alloc, key)?)),
            Some(End::NoMemory) => Err(NoMemory),
            None => unreachable!(),
        }
    }

    /// An outcome of no build: this text is printed, and nothing is written or removed.
    pub fn of_text(alloc: Global, status: u8, text: Text8) -> Outcome
        ensures { result ≡ of_text status text }
    {
        Outcome {
            status,
            text,
            commit: List::new(alloc),
            runs: 0,
        }
    }

    // The outcome of a build whose root request is over, with this result. The journal is not given
    // back piece by piece, which would take a part of the build's end: the process keeps it.
    fn of_root(
        alloc: Global,
        table: &Table,
        root: &RequestResult,
        low: bool,
    ) -> Result<Outcome, NoMemory>
        requires { IsSome (replay_all table.now.finished root.now.runs []) }
        ensures outcome { IfOk result (λ outcome.
            IfSome (replay_all table.now.finished root.now.runs [])
            (λ journal. outcome ≡ built low root.now journal)) }
        ensures status { IfOk result (λ outcome. IsStatus outcome.status) }
    {
        let journal = replay_runs(alloc, table, root.runs.as_slice())?;
        let outcome = Outcome {
            status: status_of(root.ok),
            text: show_build(alloc, root, &journal, low)?,
            commit: journal.commit_list(alloc)?,
            runs: runs_in(&journal),
        };
        mem::forget(journal);
        Ok(outcome)
    }

    // The outcome of a build that was stopped: nothing is written or removed.
    fn of_stop(alloc: Global, text: Text8) -> Outcome
        ensures { result ≡ stopped text }
    {
        Outcome::of_text(alloc, 4, text)
    }
}

fn status_of(ok: bool) -> u8
    ensures is { result ≡ status_of ok }
    ensures status { IsStatus result }
{
    if ok { 0 } else { 1 }
}
