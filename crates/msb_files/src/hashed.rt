//! The marks of entries, by hash.

ghost use Rattle.std.specs.Prelude.{◌≡◌, ◌∷◌, ◌++◌, reverse, OnOk, OnErr};
ghost use Rattle.result_cache.specs.Journal.{Journal, has};
ghost use Rattle.msb_files.specs.Indices.{HasMarks};

use crate::entry::Entry;
use crate::mark::{KeptMark, Mark};
use indexmap::IndexSet;
use msb_values::NoMemory;

/// The marks of entries.
pub(crate) type Marks = IndexSet<KeptMark>;

/// Puts the marks of entries among others.
pub(crate) fn insert_marks(marks: &mut Marks, entries: &[Entry]) -> Result<(), NoMemory>
    ensures { OnOk result ((old : Journal) → HasMarks old marks.old
        → HasMarks (reverse entries.now ++ old) marks.new) }
{
    for entry in entries {
        insert_mark(marks, entry)?;
    }
    Ok(())
}

/// Puts the mark of an entry among others. Where there is no memory, nothing changes.
pub(crate) fn insert_mark(marks: &mut Marks, entry: &Entry) -> Result<(), NoMemory>
    ensures ok { OnOk result
        ((old : Journal) → HasMarks old marks.old → HasMarks (entry.now ∷ old) marks.new) }
    ensures err { OnErr result
        ((old : Journal) → HasMarks old marks.old → HasMarks old marks.new) }
{
    marks.insert(entry.kept_mark()?)?;
    Ok(())
}

/// Whether one of the entries has this mark.
pub(crate) fn has_mark(marks: &Marks, mark: &Mark<'_>) -> bool
    ensures { (entries : Journal) → HasMarks entries marks.now → result ≡ has mark.now entries }
{
    marks.contains(mark)
}
