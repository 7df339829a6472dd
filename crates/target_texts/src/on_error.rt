ghost use Rattle.std.specs.Prelude.{◌≡◌, map, IfOk, Some};
ghost use Rattle.msb_values.specs.Caused.{GivesCause};
ghost use Rattle.build_world.specs.Answers.{GivesFault};
ghost use Rattle.build_world.specs.Elements.{seen_element};
ghost use Rattle.target_texts.specs.OnErrors.{
  as_warning,
  notes_by,
  on_error_at,
  on_error_if,
  on_error_in,
  on_error_words,
};
ghost use Rattle.target_texts.specs.Seen.{seen_context};

use build_world::{EvalFault, PlacedElement};
use element_texts::ElementContext;
use msb_files::FileView;
use msb_values::{Cause, List, NoMemory, Note, Text, same_text, unescape};
use std::alloc::Global;

/// What comes of a task that fails. (Task element, ContinueOnError.)
#[derive(Clone, Copy, Debug, PartialEq, Eq)]
pub enum OnError {
    /// The body stops, and the target fails.
    Stop,
    /// The body goes on, and the task's errors are warnings.
    Warn,
    /// The body goes on, and the task's errors stay errors.
    Continue,
}

impl OnError {
    /// What the ContinueOnError of a task element says, which by default is to stop. A text that is
    /// none of the words, which are compared without case, is a fault of the element.
    pub fn at(
        alloc: Global,
        context: &ElementContext<'_, FileView<'_>>,
        element: &PlacedElement<'_>,
    ) -> Result<OnError, EvalFault>
        ensures { GivesFault (λ on_error. on_error) result
            (on_error_at (seen_context context.now) (seen_element element.now)) }
    {
        match element.element.attribute("ContinueOnError") {
            Some(written) => OnError::read(alloc, context, element, written),
            None => Ok(OnError::Stop),
        }
    }

    fn read(
        alloc: Global,
        context: &ElementContext<'_, FileView<'_>>,
        element: &PlacedElement<'_>,
        written: &str,
    ) -> Result<OnError, EvalFault>
        ensures { GivesFault (λ on_error. on_error) result
            (on_error_if (seen_context context.now) (seen_element element.now) (Some written.now)) }
    {
        let text = context.text(alloc, element, written)?;
        let text = unescape(alloc, text.as_str())?;
        match OnError::of(alloc, text.as_str()) {
            Ok(on_error) => Ok(on_error),
            Err(cause) => Err(element.fault(alloc, cause)),
        }
    }

    // By one of the words, without case.
    fn of(alloc: Global, text: &str) -> Result<OnError, Cause>
        ensures { GivesCause result (on_error_in on_error_words text.now) }
    {
        if same_text(text, "ErrorAndStop") || same_text(text, "false") || same_text(text, "") {
            return Ok(OnError::Stop);
        }
        if same_text(text, "WarnAndContinue") || same_text(text, "true") {
            return Ok(OnError::Warn);
        }
        if same_text(text, "ErrorAndContinue") {
            return Ok(OnError::Continue);
        }
        Err(Cause::NotBoolean(Text::of(alloc, text)?))
    }

    /// The notes of a task as they are kept: where the body goes on with a warning, its errors
    /// become warnings.
    pub fn notes(self, alloc: Global, notes: List<Note>) -> Result<List<Note>, NoMemory>
        ensures { IfOk result (λ kept. kept ≡ notes_by self notes) }
    {
        match self {
            OnError::Warn => as_warnings(alloc, notes),
            OnError::Stop | OnError::Continue => Ok(notes),
        }
    }
}

fn as_warnings(alloc: Global, notes: List<Note>) -> Result<List<Note>, NoMemory>
    ensures { IfOk result (λ warnings. warnings ≡ map as_warning notes) }
{
    let mut warnings = List::new(alloc);
    for note in notes.into_vec() {
        warnings.push(as_warning(note))?;
    }
    Ok(warnings)
}

fn as_warning(note: Note) -> Note
    ensures { result ≡ as_warning note }
{
    match note {
        Note::Fail(text) => Note::Warning(text),
        _ => note,
    }
}
