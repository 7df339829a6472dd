ghost use Rattle.std.specs.Prelude.{◌≡◌};
ghost use Rattle.result_cache.specs.Journal.{end_of, has};

use build_scheduler::Walker;
use request_machine::Walk;
use result_cache::RunRef;
use task_trait::CountedTools;

/// A walk that tells which runs have ended in its journal.
pub trait Recalls: Walker {
    /// Whether the run has ended in the walk's journal. This takes no memory.
    fn recalls(&self, run: &RunRef) -> bool
        ensures { result ≡ has (end_of run.now) (Self.seen self.now).position.journal };
}

impl<'a, T: CountedTools + 'a> Recalls for Walk<'a, T> {
    fn recalls(&self, run: &RunRef) -> bool {
        self.has_ended(run)
    }
}
