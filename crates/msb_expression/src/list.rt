ghost use Rattle.std.specs.Prelude.{
  ◌≡◌,
  ◌==◌,
  [],
  ◌∷◌,
  ◌++◌,
  length,
  OnOk,
  OnErr,
  slice_get,
  option_copied,
};

use crate::NoRoom;
use std::alloc::Global;
use std::marker::Model;

/// A list that contracts see as its entries.
pub struct List<T> {
    entries: Vec<T>,
}

// A drop that is written out is proved here alone.
impl<T: Drop> Drop for List<T> {
    fn drop(self) {
        let List { entries: _ } = self;
    }
}

impl<T> Model for List<T> {
    ghost use Rattle.std.specs.Prelude.{List};

    ghost Value = { List T };

    ghost view = { λ l. l.entries.items };
}

impl<T> List<T> {
    pub fn new(alloc: Global) -> Self
        ensures { result ≡ [] }
    {
        List {
            entries: Vec::new(alloc),
        }
    }

    pub fn as_slice(&self) -> &[T]
        ensures { result.now ≡ self.now }
    {
        &self.entries
    }

    pub fn len(&self) -> usize
        ensures { result ≡ length self.now }
    {
        self.entries.len()
    }

    pub fn is_empty(&self) -> bool
        ensures { result ≡ (length self.now == 0) }
    {
        self.entries.is_empty()
    }

    pub fn get(&self, at: usize) -> Option<&T>
        ensures { option_copied result ≡ slice_get self.now at }
    {
        self.entries.get(at)
    }
}

impl<T: Drop> List<T> {
    /// Adds an entry behind the others, which want of memory leaves as they were.
    pub fn push(&mut self, entry: T) -> Result<(), NoRoom>
        ensures ok { OnOk result (self.new ≡ self.old ++ entry ∷ []) }
        ensures err { OnErr result (self.new ≡ self.old) }
    {
        self.entries.push(entry)?;
        Ok(())
    }
}
