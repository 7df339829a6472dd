ghost use Rattle.std.specs.Prelude.{◌≡◌, [], Some, IfOk, IsSome};
ghost use Rattle.result_cache.specs.Replay.{replay_all};

use msb_files::Journal;
use msb_values::NoMemory;
use result_cache::{RunRef, Table};
use std::alloc::Global;

/// The journal that these runs give, replayed in order by a table from nothing. (MSBuild task.)
pub fn replay_runs(alloc: Global, table: &Table, runs: &[RunRef]) -> Result<Journal, NoMemory>
    requires { IsSome (replay_all table.now.finished runs.now []) }
    ensures { IfOk result (λ journal. replay_all table.now.finished runs.now [] ≡ Some journal) }
{
    let mut journal = Journal::new(alloc)?;
    journal.take_runs(table, runs)?;
    journal.settle(alloc)
}
