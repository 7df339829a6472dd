ghost use Rattle.std.specs.Prelude.{
  ◌≡◌,
  ◌==◌,
  ◌<◌,
  ◌↔◌,
  [],
  ◌∷◌,
  ◌++◌,
  length,
  IfOk,
  IsSome,
  OnOk,
  OnErr,
  slice_get,
  option_copied,
  option_to_list,
};

use crate::NoMemory;
use std::alloc::{AllocError, Global};
use std::marker::Model;

/// A value that can be copied where memory is found.
pub trait Copied: Sized {
    /// An equal value.
    fn copy(&self) -> Result<Self, NoMemory>
        ensures { IfOk result (λ c. c ≡ self.now) };
}

/// A list, which contracts see as its entries.
pub struct List<T> {
    entries: Vec<T>,
}

// A drop that is written out is proved here alone.
impl<T: Drop> Drop for List<T> {
    fn drop(self) {
        let List { entries: _ } = self;
    }
}

impl<T> Model for List<T> {
    ghost use Rattle.std.specs.Prelude.{List};

    ghost Value = { List T };

    ghost view = { λ l. l.entries.items };
}

impl<T> List<T> {
    pub fn new(alloc: Global) -> List<T>
        ensures { result ≡ [] }
    {
        List {
            entries: Vec::new(alloc),
        }
    }

    pub fn as_slice(&self) -> &[T]
        ensures { result.now ≡ self.now }
    {
        &self.entries
    }

    pub fn len(&self) -> usize
        ensures { result ≡ length self.now }
    {
        self.entries.len()
    }

    pub fn is_empty(&self) -> bool
        ensures { result ≡ (length self.now == 0) }
    {
        self.entries.is_empty()
    }

    pub fn get(&self, at: usize) -> Option<&T>
        ensures { option_copied result ≡ slice_get self.now at }
    {
        self.entries.get(at)
    }

    /// The entries as a vector.
    pub fn into_vec(self) -> Vec<T>
        ensures { result.items ≡ self }
    {
        let List { entries } = self;
        entries
    }
}

impl<T> From<Vec<T>> for List<T> {
    ghost from_gives = { λ v l. l ≡ v.items };

    fn from(entries: Vec<T>) -> List<T> {
        List { entries }
    }
}

impl<T: Drop> List<T> {
    /// Adds an entry at the end; where there is no memory, the list stays as it was, and the entry
    /// is dropped.
    pub fn push(&mut self, entry: T) -> Result<(), NoMemory>
        ensures ok { OnOk result (self.new ≡ self.old ++ entry ∷ []) }
        ensures err { OnErr result (self.new ≡ self.old) }
    {
        self.entries.push(entry)?;
        Ok(())
    }

    /// Takes the last entry away, if there is one. This takes no memory.
    pub fn pop(&mut self) -> Option<T>
        ensures entries { self.old ≡ self.new ++ option_to_list result }
        ensures is_there { IsSome result ↔ (0 < length self.old) }
    {
        self.entries.pop()
    }

    /// Adds entries at the end; where there is no memory, the list stays as it was, and the entries
    /// are dropped.
    pub fn append(&mut self, more: List<T>) -> Result<(), NoMemory>
        ensures ok { OnOk result (self.new ≡ self.old ++ more) }
        ensures err { OnErr result (self.new ≡ self.old) }
    {
        let mut more = more;
        self.entries.append(&mut more.entries)?;
        Ok(())
    }
}

impl<T: Copied + Drop> List<T> {
    /// The list of copies of these.
    pub fn of(alloc: Global, entries: &[T]) -> Result<List<T>, NoMemory>
        ensures { IfOk result (λ l. l ≡ entries.now) }
    {
        let mut copies = Vec::with_capacity(alloc, entries.len())?;
        for entry in entries {
            copies.push(entry.copy()?)?;
        }
        Ok(List { entries: copies })
    }
}

impl<T: Copied + Drop> Copied for List<T> {
    fn copy(&self) -> Result<List<T>, NoMemory> {
        List::of(*self.entries.allocator(), &self.entries)
    }
}

impl<T: Copied + Drop> Clone for List<T> {
    ghost use Rattle.std.specs.Prelude.{◌≡◌};

    ghost is_clone = { λ a b. b ≡ a };

    fn clone(&self) -> Result<List<T>, AllocError> {
        match self.copy() {
            Ok(copied) => Ok(copied),
            Err(NoMemory) => Err(AllocError),
        }
    }
}
