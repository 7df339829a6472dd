ghost use Rattle.std.specs.Prelude.{◌≡◌, IfOk, IfSome, IsSome, OnOk, Some};
ghost use Rattle.result_cache.specs.Replay.{replay_all};
ghost use Rattle.build_meaning.specs.SoFar.{runs_of};
ghost use Rattle.request_machine.specs.Replayed.{IsReplayed};

use crate::shared::SharedList;
use msb_files::Journal;
use msb_values::{Copied, NoMemory};
use result_cache::{RequestResult, RunRef, Table};
use std::alloc::Global;

/// Runs, and the journal that they have given where they were replayed.
#[derive(Drop)]
pub struct Replayed {
    pub runs: SharedList<RunRef>,
    pub journal: Journal,
}

impl Replayed {
    ghost use Rattle.std.specs.Prelude.{◌≡◌, IfOk};
    ghost use Rattle.std.specs.Cmp.Lexicographic.{pointwise};
    ghost use Rattle.result_cache.specs.Same.{same_run};

    // Whether they are the runs of this result, in order.
    fn are_of(&self, alloc: Global, request_result: &RequestResult) -> Result<bool, NoMemory>
        ensures { IfOk result
            (λ same. same ≡ pointwise same_run self.now.runs request_result.now.runs) }
    {
        let runs = self.runs.to_list(alloc)?;
        Ok(runs == request_result.runs)
    }
}

/// The journal of a request after its calls: the runs of their results are replayed in call order.
/// Where those of the first result were replayed before, it goes on from there. (MSBuild task.)
pub fn journal_after(
    alloc: Global,
    journal: &Journal,
    replayed: &Option<Replayed>,
    learnt: &Table,
    results: &[RequestResult],
) -> Result<Journal, NoMemory>
    requires replays { IsSome (replay_all learnt.now.finished (runs_of results.now) journal.now) }
    requires known { ∥ IfSome replayed.now (IsReplayed learnt.now.finished journal.now) ∥₁ }
    ensures { IfOk result (λ after.
        replay_all learnt.now.finished (runs_of results.now) journal.now ≡ Some after) }
{
    match replayed {
        None => with_results(alloc, journal, learnt, results),
        Some(replayed) => replay_others(alloc, journal, replayed, learnt, results),
    }
}

// The same, where runs were replayed before.
fn replay_others(
    alloc: Global,
    journal: &Journal,
    replayed: &Replayed,
    learnt: &Table,
    results: &[RequestResult],
) -> Result<Journal, NoMemory>
    requires replays { IsSome (replay_all learnt.now.finished (runs_of results.now) journal.now) }
    requires known { IsReplayed learnt.now.finished journal.now replayed.now }
    ensures { IfOk result (λ after.
        replay_all learnt.now.finished (runs_of results.now) journal.now ≡ Some after) }
{
    match results.first() {
        None => with_results(alloc, journal, learnt, results),
        Some(first) => {
            if replayed.are_of(alloc, first)? {
                with_results(alloc, &replayed.journal, learnt, &results[1..])
            } else {
                with_results(alloc, journal, learnt, results)
            }
        }
    }
}

/// A journal with these runs replayed, in order. (MSBuild task.)
pub fn with_runs(
    alloc: Global,
    journal: &Journal,
    table: &Table,
    runs: &[RunRef],
) -> Result<Journal, NoMemory>
    requires { IsSome (replay_all table.now.finished runs.now journal.now) }
    ensures { IfOk result
        (λ after. replay_all table.now.finished runs.now journal.now ≡ Some after) }
{
    let mut after = journal.copy()?;
    after.take_runs(table, runs)?;
    after.settle(alloc)
}

// A journal with the runs of results replayed.
fn with_results(
    alloc: Global,
    journal: &Journal,
    learnt: &Table,
    results: &[RequestResult],
) -> Result<Journal, NoMemory>
    requires { IsSome (replay_all learnt.now.finished (runs_of results.now) journal.now) }
    ensures { IfOk result (λ after.
        replay_all learnt.now.finished (runs_of results.now) journal.now ≡ Some after) }
{
    let mut after = journal.copy()?;
    take_results(&mut after, learnt, results)?;
    after.settle(alloc)
}

/// Uses the records of the runs of the results of calls, in call order. (MSBuild task.)
fn take_results(
    journal: &mut Journal,
    learnt: &Table,
    results: &[RequestResult],
) -> Result<(), NoMemory>
    requires { IsSome (replay_all learnt.now.finished (runs_of results.now) journal.old) }
    ensures { OnOk result (replay_all learnt.now.finished (runs_of results.now) journal.old
        ≡ Some journal.new) }
{
    for result in results {
        journal.take_runs(learnt, result.runs.as_slice())?;
    }
    Ok(())
}
