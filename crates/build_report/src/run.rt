ghost use Rattle.std.specs.Prelude.{◌≡◌, ◌++◌, codes, OnOk, string_bytes};
ghost use Rattle.std.specs.List.{flat_map, join_by};
ghost use Rattle.build_report.specs.Line.{line};
ghost use Rattle.build_report.specs.Shown.{decision_words, run_line, note_line, run_lines};

use crate::lines::{push_line, push_name};
use msb_values::{NoMemory, Note};
use result_cache::{Decision, Record, RunId};
use std::alloc::Global;

/// A run that has ended: what became of each bucket of its target, and its notes.
pub fn push_run(
    alloc: Global,
    shown: &mut String,
    run: &RunId,
    run_record: &Record,
    low: bool,
) -> Result<(), NoMemory>
    ensures { OnOk result (string_bytes shown.new
        ≡ string_bytes shown.old ++ run_lines low run.now run_record.now) }
{
    push_run_line(alloc, shown, run, run_record.decisions.as_slice())?;
    push_notes(shown, run_record.notes.as_slice(), low)
}

fn push_run_line(
    alloc: Global,
    shown: &mut String,
    run: &RunId,
    decisions: &[Decision],
) -> Result<(), NoMemory>
    ensures { OnOk result (string_bytes shown.new
        ≡ string_bytes shown.old ++ run_line run.now decisions.now) }
{
    push_name(alloc, shown, run)?;
    shown.push(' ')?;
    push_decisions(shown, decisions)?;
    Ok(shown.push('\n')?)
}

pub(crate) fn push_decisions(shown: &mut String, decisions: &[Decision]) -> Result<(), NoMemory>
    ensures { OnOk result (string_bytes shown.new
        ≡ string_bytes shown.old ++ join_by decision_words (codes ", ") decisions.now) }
{
    match decisions {
        [] => Ok(()),
        [first, others @ ..] => {
            push_decision(shown, first)?;
            push_others(shown, others)
        }
    }
}

fn push_others(shown: &mut String, decisions: &[Decision]) -> Result<(), NoMemory>
    ensures { OnOk result (string_bytes shown.new
        ≡ string_bytes shown.old ++ flat_map (λ decision. codes ", " ++ decision_words decision)
        decisions.now) }
{
    for decision in decisions {
        shown.push_str(", ")?;
        push_decision(shown, decision)?;
    }
    Ok(())
}

fn push_decision(shown: &mut String, decision: &Decision) -> Result<(), NoMemory>
    ensures { OnOk result (string_bytes shown.new
        ≡ string_bytes shown.old ++ decision_words decision.now) }
{
    match decision {
        Decision::Ran => Ok(shown.push_str("ran")?),
        Decision::UpToDate => Ok(shown.push_str("up to date")?),
        Decision::NothingToDo => Ok(shown.push_str("nothing to do")?),
        Decision::Part(old, all) => Ok(write!(shown, "partial {old} of {all}")?),
        Decision::Failed => Ok(shown.push_str("failed")?),
    }
}

pub(crate) fn push_notes(shown: &mut String, notes: &[Note], low: bool) -> Result<(), NoMemory>
    ensures { OnOk result (string_bytes shown.new
        ≡ string_bytes shown.old ++ flat_map (note_line low) notes.now) }
{
    for note in notes {
        push_note(shown, note, low)?;
    }
    Ok(())
}

fn push_note(shown: &mut String, note: &Note, low: bool) -> Result<(), NoMemory>
    ensures { OnOk result (string_bytes shown.new
        ≡ string_bytes shown.old ++ note_line low note.now) }
{
    match note {
        Note::Low(_) if !low => Ok(()),
        Note::Low(text) | Note::Message(text) => push_line(shown, "  ", text.as_str()),
        Note::Warning(text) => push_line(shown, "  warning: ", text.as_str()),
        Note::Fail(text) => push_line(shown, "  error: ", text.as_str()),
    }
}
