ghost use Rattle.std.specs.Prelude.{
  ◌≡◌,
  ◌<◌,
  ◌++◌,
  length,
  reverse,
  slice_get,
  Some,
  IfOk,
  option_copied,
};
ghost use Rattle.std.specs.List.{list_any};
ghost use Rattle.msb_values.specs.Acts.{act_path};
ghost use Rattle.result_cache.specs.Journal.{has};
ghost use Rattle.msb_files.specs.Below.{has_file_below};
ghost use Rattle.msb_files.specs.Indices.{HasMarks, IsByPath, last_act};
ghost use Rattle.msb_files.specs.Views.{acts_of};

use crate::FileView;
use crate::entry::Entry;
use crate::hashed::{Marks, has_mark, insert_marks};
use crate::mark::Mark;
use crate::part::{Part, push_copies};
use crate::sorted::{by_path, is_any_below, last_act, merge};
use msb_values::{Act, NoMemory};
use std::alloc::Global;
use std::marker::Model;

/// Entries that stand together in a journal, with an index by path and one by mark.
pub(crate) struct Layer {
    /// The oldest first.
    entries: Vec<Entry>,
    /// The places of their acts, in byte order of the paths, and of each path the newest first.
    by_path: Vec<usize>,
    /// The marks of the entries.
    marks: Marks,
}

// A drop that is written out is proved here alone.
impl Drop for Layer {
    fn drop(self) {
        let Layer {
            entries: _,
            by_path: _,
            marks: _,
        } = self;
    }
}

impl Model for Layer {
    ghost use Rattle.std.specs.Prelude.{reverse};
    ghost use Rattle.result_cache.specs.Journal.{Journal};
    ghost use Rattle.msb_files.specs.Indices.{IsIndexed};

    ghost Value = { Journal };

    ghost view = { λ l. reverse l.entries.items };

    ghost invariant = { λ l. IsIndexed l.entries.items l.by_path.items l.marks };
}

impl Layer {
    /// The entries of a part.
    pub(crate) fn of_part(alloc: Global, part: Part) -> Result<Layer, NoMemory>
        ensures { IfOk result (λ l. l ≡ part) }
    {
        let (entries, marks) = part.into_parts();
        let by_path = by_path(alloc, &entries)?;
        Ok(Layer {
            entries,
            by_path,
            marks,
        })
    }

    /// The entries of two layers, of which the other is older.
    pub(crate) fn over(self, alloc: Global, older: &Layer) -> Result<Layer, NoMemory>
        ensures { IfOk result (λ l. l ≡ self ++ older.now) }
    {
        let (newer, newer_places, mut marks) = self.into_parts();
        insert_marks(&mut marks, older.entries())?;
        let entries = join(alloc, older.entries(), newer)?;
        let shift = older.len();
        let by_path = merge(alloc, &entries, &newer_places, older.places(), shift)?;
        Ok(Layer {
            entries,
            by_path,
            marks,
        })
    }

    fn into_parts(self) -> (Vec<Entry>, Vec<usize>, Marks)
        ensures entries { result.0.items ≡ reverse self }
        ensures places { IsByPath (reverse self) result.1.items }
        ensures marks { HasMarks self result.2 }
    {
        let Layer {
            entries,
            by_path,
            marks,
        } = self;
        (entries, by_path, marks)
    }

    // The oldest first.
    fn entries(&self) -> &[Entry]
        ensures { result.now ≡ reverse self.now }
    {
        &self.entries
    }

    fn places(&self) -> &[usize]
        ensures { IsByPath (reverse self.now) result.now }
    {
        &self.by_path
    }

    pub(crate) fn len(&self) -> usize
        ensures { result ≡ length self.now }
    {
        self.entries.len()
    }

    /// The entry at a place, from the newest on.
    pub(crate) fn entry(&self, at: usize) -> &Entry
        requires { at < length self.now }
        ensures { slice_get self.now at ≡ Some result.now }
    {
        &self.entries[self.entries.len() - 1 - at]
    }

    /// The last act on a path here.
    pub(crate) fn last_act(&self, path: &str) -> Option<&Act>
        ensures { option_copied result ≡ last_act self.now path.now }
    {
        last_act(self.entries(), self.places(), path)
    }

    /// Whether there is an entry with this mark.
    pub(crate) fn has(&self, mark: &Mark<'_>) -> bool
        ensures { result ≡ has mark.now self.now }
    {
        has_mark(&self.marks, mark)
    }

    /// Whether an act here is on a path below a folder at which the view has a file.
    pub(crate) fn is_any_below(&self, view: &FileView<'_>, folder: &str) -> bool
        ensures { result ≡ list_any (λ act. has_file_below view.now folder.now (act_path act))
            (acts_of self.now) }
    {
        is_any_below(self.entries(), self.places(), view, folder)
    }
}

fn join(alloc: Global, older: &[Entry], newer: Vec<Entry>) -> Result<Vec<Entry>, NoMemory>
    ensures { IfOk result (λ all. all.items ≡ older.now ++ newer.items) }
{
    let mut newer = newer;
    let mut all = Vec::with_capacity(alloc, older.len() + newer.len())?;
    push_copies(&mut all, older)?;
    all.append(&mut newer)?;
    Ok(all)
}
