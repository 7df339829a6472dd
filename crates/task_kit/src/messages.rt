ghost use Rattle.std.specs.Prelude.{◌≡◌, IfOk};
ghost use Rattle.task_trait.specs.Answers.{Gives};
ghost use Rattle.task_kit.specs.Messages.{
  create_property,
  error,
  is_low,
  message,
  message_note,
  said,
  warning,
};

use crate::progress::{output, success};
use msb_values::{List, NoMemory, Note, Text, same_text};
use std::alloc::Global;
use task_trait::{Failure, Param, TaskOutput, bad_parameter, check_known, items_of, text_of};

/// A note of the Text, by the Importance. (Message task.)
pub(crate) fn message(alloc: Global, params: &[Param]) -> Result<TaskOutput, Failure>
    ensures { Gives result (message params.now) }
{
    check_known(alloc, "message", params)?;
    match is_low(text_of(params, "importance")) {
        Some(low) => Ok(said(alloc, message_note(alloc, text_of(params, "text"), low)?)?),
        None => Err(bad_parameter(alloc, "importance")?),
    }
}

/// Whether an Importance is low; `normal` and `high` are not, and another text is none.
fn is_low(text: &str) -> Option<bool>
    ensures { result ≡ is_low text.now }
{
    if same_text(text, "low") {
        Some(true)
    } else if text.is_empty() || same_text(text, "normal") || same_text(text, "high") {
        Some(false)
    } else {
        None
    }
}

fn message_note(alloc: Global, text: &str, low: bool) -> Result<Note, NoMemory>
    ensures { IfOk result (λ note. note ≡ message_note text.now low) }
{
    let text = Text::of(alloc, text)?;
    Ok(if low {
        Note::Low(text)
    } else {
        Note::Message(text)
    })
}

/// A warning of the Text. (Warning task.)
pub(crate) fn warning(alloc: Global, params: &[Param]) -> Result<TaskOutput, Failure>
    ensures { Gives result (warning params.now) }
{
    check_known(alloc, "warning", params)?;
    let text = Text::of(alloc, text_of(params, "text"))?;
    Ok(said(alloc, Note::Warning(text))?)
}

/// The failure with the Text as its note. (Error task.)
pub(crate) fn error(alloc: Global, params: &[Param]) -> Result<TaskOutput, Failure>
    ensures { Gives result (error params.now) }
{
    check_known(alloc, "error", params)?;
    Err(Failure::Raised(Text::of(alloc, text_of(params, "text"))?))
}

/// The items of the Value. (CreateProperty task.)
pub(crate) fn create_property(alloc: Global, params: &[Param]) -> Result<TaskOutput, Failure>
    ensures { Gives result (create_property params.now) }
{
    check_known(alloc, "createproperty", params)?;
    let items = List::of(alloc, items_of(params, "value"))?;
    let mut outputs = List::new(alloc);
    outputs.push(output(alloc, "value", items)?)?;
    Ok(success(alloc, outputs))
}

fn said(alloc: Global, note: Note) -> Result<TaskOutput, NoMemory>
    ensures { IfOk result (λ output. output ≡ said note) }
{
    let mut notes = List::new(alloc);
    notes.push(note)?;
    Ok(TaskOutput {
        ok: true,
        outputs: List::new(alloc),
        acts: List::new(alloc),
        notes,
    })
}
