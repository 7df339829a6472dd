ghost use Rattle.std.specs.Prelude.{◌≡◌, ◌++◌, IfOk, OnOk, string_bytes};
ghost use Rattle.msb_files.specs.Seen.{entry_shown};
ghost use Rattle.build_report.specs.Shown.{shown_text, journal_lines, entry_lines};

use crate::end::push_end;
use crate::run::push_run;
use msb_files::{JView, Journal};
use msb_values::{NoMemory, Text8};
use result_cache::RequestResult;
use std::alloc::Global;

/// What is printed of a build: the runs in the journal of its root request, with their notes, of
/// which those of low importance are left out unless they are asked for; then the error text of the
/// root request, the items that it returns, and how the build ended.
///
/// (MSBuild command-line reference; Message task; Incremental builds.)
pub fn show_build(
    alloc: Global,
    root: &RequestResult,
    journal: &Journal,
    low: bool,
) -> Result<Text8, NoMemory>
    ensures { IfOk result (λ t. t ≡ shown_text root.now journal.now low) }
{
    let mut shown = String::new(alloc);
    push_journal(alloc, &mut shown, journal, low)?;
    push_end(alloc, &mut shown, root)?;
    Ok(Text8::from(shown.into_bytes()))
}

fn push_journal(
    alloc: Global,
    shown: &mut String,
    journal: &Journal,
    low: bool,
) -> Result<(), NoMemory>
    ensures { OnOk result (string_bytes shown.new
        ≡ string_bytes shown.old ++ journal_lines low journal.now) }
{
    for at in 0..journal.count() {
        push_entry(alloc, shown, journal.entry(at), low)?;
    }
    Ok(())
}

fn push_entry(
    alloc: Global,
    shown: &mut String,
    entry: JView<'_>,
    low: bool,
) -> Result<(), NoMemory>
    ensures { OnOk result (string_bytes shown.new
        ≡ string_bytes shown.old ++ entry_lines low (entry_shown entry.entry)) }
{
    match entry {
        JView::Wrote(_, _, _, _) => Ok(()),
        JView::Removed(_, _, _) => Ok(()),
        JView::Ended(run, record) => push_run(alloc, shown, run, record, low),
    }
}
