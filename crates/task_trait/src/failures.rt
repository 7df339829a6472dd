ghost use Rattle.std.specs.Prelude.{◌≡◌, ◌++◌, IfOk, codes, string_bytes};
ghost use Rattle.std.specs.Fmt.{decimal};
ghost use Rattle.msb_values.specs.declared.note.Note.TheVariants.{Fail};
ghost use Rattle.task_trait.specs.declared.failures.Failure.TheVariants.{Memory};

use crate::TaskOutput;
use msb_values::{List, NoMemory, Note, Text};
use std::alloc::Global;

/// Why a task fails. Paths are as the task's parameter gives them, names in lower case. (MSBuild
/// tasks.)
#[derive(Drop)]
pub enum Failure {
    /// This source of a copy is not there.
    MissingSource(Text),
    /// A copy has so many sources, and another number of destinations.
    Counts(usize, usize),
    /// A copy has both destinations, or sources and no destination.
    Destinations,
    /// This required parameter is missing.
    MissingParameter(Text),
    /// The project itself raises this error.
    Raised(Text),
    /// This file would be too large, or its run would write too much with it.
    TooLarge(Text),
    /// The task does not have this parameter.
    UnknownParameter(Text),
    /// This parameter has a value that the task cannot use.
    BadParameter(Text),
    /// There is no task of this name.
    UnknownTask,
    /// A tool gives a file whose path is not normal.
    BadPath(Text),
    /// The file at this path is no text in UTF-8.
    NotText(Text),
    /// This project file is missing.
    NoProject(Text),
    /// Want of memory, which is not told.
    Memory,
}

impl Failure {
    ghost use Rattle.task_trait.specs.Failures.{failed, failure_text, detail_of};

    /// The output of the task of this name, where it fails a check: nothing but the failure's note.
    /// Want of memory has none.
    pub fn output(&self, alloc: Global, task: &str) -> Result<TaskOutput, NoMemory>
        ensures output { IfOk result (λ output. output ≡ failed task.now self.now) }
        ensures told { IfOk result (λ _. self.now ≡ Memory → ⊥) }
    {
        let note = self.note(alloc, task)?;
        let mut notes = List::new(alloc);
        notes.push(note)?;
        Ok(TaskOutput {
            ok: false,
            outputs: List::new(alloc),
            acts: List::new(alloc),
            notes,
        })
    }

    /// The note of the failure, of the task of this name, which is in lower case. Want of memory
    /// has none.
    pub fn note(&self, alloc: Global, task: &str) -> Result<Note, NoMemory>
        ensures note { IfOk result (λ note. note ≡ Fail (failure_text task.now self.now)) }
        ensures told { IfOk result (λ _. self.now ≡ Memory → ⊥) }
    {
        match self {
            Failure::Memory => Err(NoMemory),
            _ => Ok(Note::Fail(self.text(alloc, task)?)),
        }
    }

    fn text(&self, alloc: Global, task: &str) -> Result<Text, NoMemory>
        ensures { IfOk result (λ text. text ≡ failure_text task.now self.now) }
    {
        match self {
            Failure::Raised(text) => Text::of(alloc, text.as_str()),
            _ => self.named_text(alloc, task),
        }
    }

    fn named_text(&self, alloc: Global, task: &str) -> Result<Text, NoMemory>
        ensures { IfOk result (λ text. text ≡ task.now ++ codes ": " ++ detail_of self.now) }
    {
        let detail = self.detail(alloc)?;
        Ok(Text::from(format!(in alloc; "{task}: {detail}")?))
    }

    /// What stands behind the task's name.
    fn detail(&self, alloc: Global) -> Result<String, NoMemory>
        ensures { IfOk result (λ whole. string_bytes whole ≡ detail_of self.now) }
    {
        match self {
            Failure::MissingSource(text) | Failure::MissingParameter(text) => words(
                alloc,
                "missing ",
                text.as_str(),
            ),
            Failure::Counts(sources, destinations) => counts(alloc, *sources, *destinations),
            Failure::Destinations => words(alloc, "destinations", ""),
            Failure::Raised(text) => words(alloc, "", text.as_str()),
            Failure::TooLarge(text) => words(alloc, "too large ", text.as_str()),
            Failure::UnknownParameter(text) => words(alloc, "unknown ", text.as_str()),
            Failure::BadParameter(text) => words(alloc, "bad ", text.as_str()),
            Failure::UnknownTask => words(alloc, "unknown task", ""),
            Failure::BadPath(text) => words(alloc, "bad path ", text.as_str()),
            Failure::NotText(text) => words(alloc, "not text ", text.as_str()),
            Failure::NoProject(text) => words(alloc, "no project ", text.as_str()),
            Failure::Memory => words(alloc, "memory", ""),
        }
    }
}

fn words(alloc: Global, words: &str, text: &str) -> Result<String, NoMemory>
    ensures { IfOk result (λ whole. string_bytes whole ≡ words.now ++ text.now) }
{
    Ok(format!(in alloc; "{words}{text}")?)
}

fn counts(alloc: Global, sources: usize, destinations: usize) -> Result<String, NoMemory>
    ensures { IfOk result (λ whole. string_bytes whole
        ≡ decimal sources ++ codes " sources, " ++ decimal destinations ++ codes " destinations") }
{
    Ok(format!(in alloc; "{sources} sources, {destinations} destinations")?)
}

impl From<NoMemory> for Failure {
    ghost from_gives = { λ _ failure. failure ≡ Memory };

    fn from(_: NoMemory) -> Self {
        Failure::Memory
    }
}
