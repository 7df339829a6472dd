ghost use Rattle.std.specs.Prelude.{◌≡◌, ◌++◌, IfOk, OnOk, OnErr};

use crate::NoRoom;
use std::alloc::Global;
use std::marker::Model;

/// A text that contracts see as its bytes in UTF-8.
pub struct Word {
    string: String,
}

// A drop that is written out is proved here alone.
impl Drop for Word {
    fn drop(self) {
        let Word { string: _ } = self;
    }
}

impl Model for Word {
    ghost use Rattle.std.specs.Prelude.{ℕ, List, string_bytes};

    ghost Value = { List ℕ };

    ghost view = { λ w. string_bytes w.string };
}

impl Word {
    /// A copy of the text.
    pub fn of(alloc: Global, text: &str) -> Result<Word, NoRoom>
        ensures { IfOk result (λ w. w ≡ text.now) }
    {
        Ok(Word {
            string: String::from_str(alloc, text)?,
        })
    }

    pub fn as_str(&self) -> &str
        ensures { result.now ≡ self.now }
    {
        self.string.as_str()
    }

    /// Puts `more` behind the text, which want of memory leaves as it was.
    pub fn push_str(&mut self, more: &str) -> Result<(), NoRoom>
        ensures ok { OnOk result (self.new ≡ self.old ++ more.now) }
        ensures err { OnErr result (self.new ≡ self.old) }
    {
        self.string.push_str(more)?;
        Ok(())
    }
}
