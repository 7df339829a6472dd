ghost use Rattle.std.specs.Prelude.{◌≡◌, IfOk, string_bytes};

use crate::NoRoom;
use std::alloc::Global;
use std::marker::Model;

/// A text that contracts see as its bytes in UTF-8.
pub struct Word {
    string: String,
}

// A drop that is written out is proved here alone.
impl Drop for Word {
    fn drop(self) {
        let Word { string: _ } = self;
    }
}

impl Model for Word {
    ghost use Rattle.std.specs.Prelude.{ℕ, List, string_bytes};

    ghost Value = { List ℕ };

    ghost view = { λ w. string_bytes w.string };
}

impl From<String> for Word {
    ghost from_gives = { λ string w. w ≡ string_bytes string };

    fn from(string: String) -> Self {
        Word { string }
    }
}

impl Word {
    /// A copy of the text.
    pub fn of(alloc: Global, text: &str) -> Result<Word, NoRoom>
        ensures { IfOk result (λ w. w ≡ text.now) }
    {
        Ok(Word {
            string: String::from_str(alloc, text)?,
        })
    }

    pub fn as_str(&self) -> &str
        ensures { result.now ≡ self.now }
    {
        self.string.as_str()
    }
}
