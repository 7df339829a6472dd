//! What a listing found: its entries, and the bytes of their files.
ghost use Rattle.std.specs.Prelude.{◌≡◌, ◌-◌, length, slice_get, true, IfOk, IfSome};
ghost use Rattle.file_store.specs.Entries.{are_listed_in_order};
ghost use Rattle.file_store.specs.Paths.{is_before};

use crate::held::Held;
use crate::listing::{Found, FoundFile, find_in_order};
use crate::place::Place;
use crate::reading::ReadFile;
use file_store::Entry;
use msb_values::List;
use std::alloc::{AllocError, Global};
use std::io;
use std::rt::Files;

/// The entries of a listing, and the bytes of their files that were read.
#[derive(Drop)]
pub(crate) struct Listed {
    pub(crate) entries: List<Entry>,
    pub(crate) held: Held,
    pub(crate) ghost in_order: { are_listed_in_order entries ≡ true },
}

impl Listed {
    /// Lists a folder. `look` looks at some paths, and may leave some of what is below. It may read
    /// the files that it finds.
    pub(crate) fn of<R, F>(place: &Place<'_, R>, look: &F) -> io::Result<Listed>
    where
        R: Files,
        F: Fn(&[String]) -> io::Result<Found>,
        requires { F.IsAlwaysCallable look.now }
    {
        let files = find_in_order(place, look)?;
        let (entries, read) = in_order(place.alloc, files)?;
        let held = Held::of(read);
        Ok(Listed { entries, held })
    }
}

// Files that are sorted by their paths, as a listing, with the bytes of those that were read: of
// those at one path the first.
fn in_order(
    alloc: Global,
    files: Vec<FoundFile>,
) -> Result<(List<Entry>, Vec<ReadFile>), AllocError>
    ensures { IfOk result (λ r. are_listed_in_order r.0 ≡ true) }
{
    let mut entries = Vec::with_capacity(alloc, files.len())?;
    let mut all_read = Vec::with_capacity(alloc, files.len())?;
    for FoundFile { entry, read } in files {
        if !is_later(&entries, &entry) {
            continue;
        }
        if let Some(file) = read {
            all_read.push(file)?;
        }
        entries.push(entry)?;
    }
    Ok((List::from(entries), all_read))
}

// Whether the file stands behind the last one.
fn is_later(entries: &[Entry], file: &Entry) -> bool
    ensures { result ≡ true → IfSome (slice_get entries.now (length entries.now - 1))
        (λ last. is_before last.path file.now.path ≡ true) }
{
    match entries.last() {
        Some(last) => last.path < file.path,
        None => true,
    }
}
