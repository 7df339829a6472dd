ghost use Rattle.std.specs.Prelude.{
  ◌≡◌,
  [],
  ◌∷◌,
  ◌++◌,
  length,
  OnOk,
  OnErr,
  slice_get,
  option_copied,
};

use crate::{NoRoom, Word};
use std::alloc::Global;
use std::marker::Model;

/// The arguments of a call, a list that contracts see as its texts.
pub struct Texts {
    texts: Vec<Word>,
}

// A drop that is written out is proved here alone.
impl Drop for Texts {
    fn drop(self) {
        let Texts { texts: _ } = self;
    }
}

impl Model for Texts {
    ghost use Rattle.std.specs.Prelude.{ℕ, List};

    ghost Value = { List (List ℕ) };

    ghost view = { λ t. t.texts.items };
}

impl Texts {
    pub fn new(alloc: Global) -> Self
        ensures { result ≡ [] }
    {
        Texts {
            texts: Vec::new(alloc),
        }
    }

    pub fn as_slice(&self) -> &[Word]
        ensures { result.now ≡ self.now }
    {
        &self.texts
    }

    pub fn len(&self) -> usize
        ensures { result ≡ length self.now }
    {
        self.texts.len()
    }

    pub fn get(&self, at: usize) -> Option<&Word>
        ensures { option_copied result ≡ slice_get self.now at }
    {
        self.texts.get(at)
    }

    /// Adds a text behind the others, which want of memory leaves as they were.
    pub fn push(&mut self, text: Word) -> Result<(), NoRoom>
        ensures ok { OnOk result (self.new ≡ self.old ++ text ∷ []) }
        ensures err { OnErr result (self.new ≡ self.old) }
    {
        self.texts.push(text)?;
        Ok(())
    }
}
