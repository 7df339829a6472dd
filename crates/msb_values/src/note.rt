use crate::{Copied, NoMemory, Text};

/// What a task says in the report of a build. (Message task; Warning task; Error task.)
#[derive(Drop)]
pub enum Note {
    /// A message of low importance, which is printed only on request.
    Low(Text),
    Message(Text),
    Warning(Text),
    Fail(Text),
}

impl Copied for Note {
    fn copy(&self) -> Result<Note, NoMemory> {
        match self {
            Note::Low(text) => Ok(Note::Low(text.copy()?)),
            Note::Message(text) => Ok(Note::Message(text.copy()?)),
            Note::Warning(text) => Ok(Note::Warning(text.copy()?)),
            Note::Fail(text) => Ok(Note::Fail(text.copy()?)),
        }
    }
}
