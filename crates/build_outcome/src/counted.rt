//! How many runs have ended in a build.

ghost use Rattle.std.specs.Prelude.{◌≡◌};
ghost use Rattle.msb_files.specs.Seen.{entry_shown};
ghost use Rattle.build_outcome.specs.Counted.{is_end, runs_in};

use msb_files::{JView, Journal};

/// How many runs have ended in a journal. (MSBuild targets.)
pub fn runs_in(journal: &Journal) -> usize
    ensures { result ≡ runs_in journal.now }
{
    let mut runs = 0;
    for at in 0..journal.count() {
        if is_end(journal.entry(at)) {
            runs += 1;
        }
    }
    runs
}

fn is_end(entry: JView<'_>) -> bool
    ensures { result ≡ is_end (entry_shown entry.entry) }
{
    match entry {
        JView::Wrote(_, _, _, _) => false,
        JView::Removed(_, _, _) => false,
        JView::Ended(_, _) => true,
    }
}
