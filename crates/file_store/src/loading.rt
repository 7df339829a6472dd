ghost use Rattle.std.specs.Prelude.{
  ◌≡◌,
  ◌≤◌,
  true,
  None,
  length,
  take,
  Contains,
  IfOk,
  IfErr,
  IfSome,
};
ghost use Rattle.msb_laws.specs.Words.{Path};
ghost use Rattle.file_store.specs.Files.{paths_of, bytes_at};
ghost use Rattle.file_store.specs.Entries.{entries_of, paths_in, are_listed_in_order};
ghost use Rattle.file_store.specs.Limits.{limit_fault};
ghost use Rattle.file_store.specs.Loads.{
  OfListing,
  IsLoaded,
  AreAsListed,
  IsCaused,
  IsOfKind,
  IsReadCaused,
};
ghost use Rattle.file_store.specs.declared.loading.LoadFault.TheVariants.{Memory};

use crate::limits::check_limits;
use crate::{Entry, File, Store, StoreError, Tree};
use msb_values::{Copied, List, NoMemory, Text};
use std::alloc::Global;

/// Why no tree was loaded.
#[derive(Drop)]
pub enum LoadFault {
    /// The store failed to list its files.
    Listing,
    /// The store failed to read the file at this path.
    Reading(Text),
    /// The listing has this many files, which are over 20,000.
    Files(u64),
    /// The files have this many bytes together, which are over 256 MiB.
    Bytes(u128),
    /// The file at this path has over 16 MiB.
    Large(Text),
    /// This path is not normal.
    BadPath(Text),
    Memory,
}

impl From<NoMemory> for LoadFault {
    ghost from_gives = { λ _ e. e ≡ Memory };

    fn from(_: NoMemory) -> Self {
        LoadFault::Memory
    }
}

/// Loads all files of a store: its listing, and then each listed file up to its listed size.
///
/// A listing that passes a limit is refused before any file is read: for its number of files, or
/// else for their bytes in all, or else for the first file whose path is not normal, or which is
/// too large. No more than its listed size is asked of a file, so that what is loaded is within the
/// limits too, whatever the store tells.
pub fn load<S: Store>(alloc: Global, store: &mut S) -> Result<Tree, LoadFault>
    ensures whole { IfOk result (λ t. IfSome (S.seen store.old).tree (λ files. t.files ≡ files)) }
    ensures within { IfOk result
        (λ t. OfListing (S.seen store.old).tree (IsLoaded (paths_of t.files))) }
    ensures limited { IfOk result (λ t. limit_fault (entries_of t.files) ≡ None) }
    ensures kept { (S.seen store.new).tree ≡ (S.seen store.old).tree }
    ensures later { (S.seen store.old).fault_count ≤ (S.seen store.new).fault_count }
    ensures cause { IfErr result (IsCaused (S.seen store.old) (S.seen store.new)) }
    ensures kind { IfErr result (IsOfKind (S.seen store.old) (S.seen store.new)) }
{
    let entries = match store.list(alloc) {
        Ok(entries) => entries,
        Err(StoreError::Failed) => return Err(LoadFault::Listing),
        Err(StoreError::Memory) => return Err(LoadFault::Memory),
    };
    check_limits(alloc, entries.as_slice())?;
    load_files(alloc, store, entries.as_slice())
}

fn load_files<S: Store>(alloc: Global, store: &mut S, entries: &[Entry]) -> Result<Tree, LoadFault>
    requires { are_listed_in_order entries.now ≡ true }
    ensures whole { IfOk result
        (λ t. IfSome (S.seen store.old).tree (λ files. entries.now ≡ entries_of files
        → t.files ≡ files)) }
    ensures paths { IfOk result (λ t. paths_of t.files ≡ paths_in entries.now) }
    ensures as_listed { IfOk result (λ t. AreAsListed entries.now t.files) }
    ensures kept { (S.seen store.new).tree ≡ (S.seen store.old).tree }
    ensures later { (S.seen store.old).fault_count ≤ (S.seen store.new).fault_count }
    ensures cause { IfErr result
        (IsReadCaused (S.seen store.old) (S.seen store.new) (Contains (paths_in entries.now))) }
    ensures kind { IfErr result (IsOfKind (S.seen store.old) (S.seen store.new)) }
    ensures reads_later { (path : Path) → (S.seen store.old).failures.reads path
        ≤ (S.seen store.new).failures.reads path }
{
    let mut files = List::new(alloc);
    for entry in entries {
        files.push(load_file(alloc, store, entry)?)?;
    }
    Ok(Tree { files })
}

fn load_file<S: Store>(alloc: Global, store: &mut S, entry: &Entry) -> Result<File, LoadFault>
    ensures path { IfOk result (λ f. f.path ≡ entry.now.path) }
    ensures size { IfOk result (λ f. length f.bytes ≤ entry.now.size) }
    ensures stamp { IfOk result (λ f. f.stamp ≡ entry.now.stamp) }
    ensures bytes { IfOk result
        (λ f.
        IfSome (S.seen store.old).tree (λ files. f.bytes
        ≡ take entry.now.size (bytes_at entry.now.path files))) }
    ensures kept { (S.seen store.new).tree ≡ (S.seen store.old).tree }
    ensures later { (S.seen store.old).fault_count ≤ (S.seen store.new).fault_count }
    ensures cause { IfErr result
        (IsReadCaused (S.seen store.old) (S.seen store.new) (λ path. path ≡ entry.now.path)) }
    ensures kind { IfErr result (IsOfKind (S.seen store.old) (S.seen store.new)) }
    ensures reads_later { (path : Path) → (S.seen store.old).failures.reads path
        ≤ (S.seen store.new).failures.reads path }
{
    match store.read(alloc, entry.path.as_str(), entry.size) {
        Ok(bytes) => Ok(File {
            path: entry.path.copy()?,
            bytes,
            stamp: entry.stamp,
        }),
        Err(StoreError::Failed) => Err(LoadFault::Reading(entry.path.copy()?)),
        Err(StoreError::Memory) => Err(LoadFault::Memory),
    }
}
