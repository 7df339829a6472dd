ghost use Rattle.std.specs.Prelude.{
  ◌≡◌,
  ◌<◌,
  ◌++◌,
  [],
  ◌∷◌,
  Some,
  length,
  reverse,
  slice_get,
  OnOk,
  OnErr,
  option_copied,
};
ghost use Rattle.std.specs.List.{list_any};
ghost use Rattle.msb_values.specs.Acts.{act_path};
ghost use Rattle.result_cache.specs.Journal.{has};
ghost use Rattle.msb_files.specs.Below.{has_file_below};
ghost use Rattle.msb_files.specs.Indices.{HasMarks, last_act};
ghost use Rattle.msb_files.specs.Views.{acts_of};

use crate::FileView;
use crate::entry::Entry;
use crate::hashed::{Marks, has_mark, insert_mark, insert_marks};
use crate::mark::Mark;
use indexmap::IndexSet;
use msb_values::{Act, Copied, NoMemory};
use std::alloc::Global;
use std::marker::Model;

/// Entries to which others are added in place, with an index by mark. A path is looked for in one
/// after the other.
pub(crate) struct Part {
    /// The oldest first.
    entries: Vec<Entry>,
    /// The marks of the entries.
    marks: Marks,
}

// A drop that is written out is proved here alone.
impl Drop for Part {
    fn drop(self) {
        let Part {
            entries: _,
            marks: _,
        } = self;
    }
}

impl Model for Part {
    ghost use Rattle.std.specs.Prelude.{reverse};
    ghost use Rattle.result_cache.specs.Journal.{Journal};
    ghost use Rattle.msb_files.specs.Indices.{HasMarks};

    ghost Value = { Journal };

    ghost view = { λ p. reverse p.entries.items };

    ghost invariant = { λ p. HasMarks (reverse p.entries.items) p.marks };
}

impl Part {
    pub(crate) fn new(alloc: Global) -> Part
        ensures { result ≡ [] }
    {
        Part {
            entries: Vec::new(alloc),
            marks: IndexSet::new(alloc),
        }
    }

    pub(crate) fn len(&self) -> usize
        ensures { result ≡ length self.now }
    {
        self.entries.len()
    }

    /// The entry at a place, from the newest on.
    pub(crate) fn entry(&self, at: usize) -> &Entry
        requires { at < length self.now }
        ensures { slice_get self.now at ≡ Some result.now }
    {
        &self.entries[self.entries.len() - 1 - at]
    }

    /// Whether there is an entry with this mark.
    pub(crate) fn has(&self, mark: &Mark<'_>) -> bool
        ensures { result ≡ has mark.now self.now }
    {
        has_mark(&self.marks, mark)
    }

    /// The last act on a path here.
    pub(crate) fn last_act(&self, path: &str) -> Option<&Act>
        ensures { option_copied result ≡ last_act self.now path.now }
    {
        let len = self.len();
        for at in 0..len {
            if let Some(act) = self.entry(at).act_on(path) {
                return Some(act);
            }
        }
        None
    }

    /// Whether an act here is on a path below a folder at which the view has a file.
    pub(crate) fn is_any_below(&self, view: &FileView<'_>, folder: &str) -> bool
        ensures { result ≡ list_any (λ act. has_file_below view.now folder.now (act_path act))
            (acts_of self.now) }
    {
        is_any_entry_below(&self.entries, view, folder)
    }

    /// Puts an entry in front. Where there is no memory, nothing changes.
    pub(crate) fn push(&mut self, entry: Entry) -> Result<(), NoMemory>
        ensures ok { OnOk result (self.new ≡ entry ∷ self.old) }
        ensures err { OnErr result (self.new ≡ self.old) }
    {
        self.entries.reserve(1)?;
        insert_mark(&mut self.marks, &entry)?;
        self.entries.push(entry)?;
        Ok(())
    }

    /// The entries, the oldest first, and their marks.
    pub(crate) fn into_parts(self) -> (Vec<Entry>, Marks)
        ensures entries { reverse result.0.items ≡ self }
        ensures marks { HasMarks self result.1 }
    {
        let Part { entries, marks } = self;
        (entries, marks)
    }
}

impl Copied for Part {
    fn copy(&self) -> Result<Part, NoMemory> {
        let alloc = *self.entries.allocator();
        let mut entries = Vec::with_capacity(alloc, self.entries.len())?;
        push_copies(&mut entries, &self.entries)?;
        let mut marks = IndexSet::new(alloc);
        insert_marks(&mut marks, &entries)?;
        Ok(Part { entries, marks })
    }
}

/// Puts copies of entries behind others.
pub(crate) fn push_copies(entries: &mut Vec<Entry>, more: &[Entry]) -> Result<(), NoMemory>
    ensures { OnOk result (entries.new.items ≡ entries.old.items ++ more.now) }
{
    for entry in more {
        entries.push(entry.copy()?)?;
    }
    Ok(())
}

fn is_any_entry_below(entries: &[Entry], view: &FileView<'_>, folder: &str) -> bool
    ensures { result
        ≡ list_any
        (λ e. list_any (λ act. has_file_below view.now folder.now (act_path act))
        (acts_of (e ∷ []))) entries.now }
{
    entries.iter().any(|entry| entry.is_below(view, folder))
}
