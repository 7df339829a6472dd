ghost use Rattle.std.specs.Prelude.{
  ◌≡◌,
  ◌≤◌,
  length,
  take,
  IfOk,
  OnOk,
  OnErr,
  IfSome,
  true,
};
ghost use Rattle.file_store.specs.Files.{are_in_order, bytes_at};
ghost use Rattle.file_store.specs.Entries.{entries_of, are_listed_in_order};
ghost use Rattle.file_store.specs.Failed.{CountsListing, CountsRead, CountsNeither};
ghost use Rattle.file_store.specs.Seen.{StoreSeen, OfTrees, CountsFault};
ghost use Rattle.file_store.specs.Writes.{IsWritten, IsOldOrNew, IsRemoved, IsOldOrGone};
ghost use Rattle.file_store.specs.declared.store.StoreError.TheVariants.{Memory};

use msb_values::{List, NoMemory, Text, Text8};
use std::alloc::Global;

/// Why a call of a store gave no answer.
#[derive(Clone, Copy, Debug, PartialEq, Eq)]
pub enum StoreError {
    /// The store failed, and has counted it.
    Failed,
    Memory,
}

impl From<NoMemory> for StoreError {
    ghost from_gives = { λ _ e. e ≡ Memory };

    fn from(_: NoMemory) -> Self {
        StoreError::Memory
    }
}

/// What a listing says of a file: its path from the root of the store, its size in bytes, and the
/// time of its last change, in a unit of the store.
#[derive(Drop)]
pub struct Entry {
    pub path: Text,
    pub size: u64,
    pub stamp: u64,
}

/// Files by their paths. It may tell the files that it holds.
pub trait Store {
    /// Its files, where it tells them, and how often it has failed.
    ghost seen: { Self → StoreSeen };

    /// All files, in byte order of their paths.
    fn list(&mut self, alloc: Global) -> Result<List<Entry>, StoreError>
        ensures order { IfOk result (λ l. are_listed_in_order l ≡ true) }
        ensures all { IfOk result (λ l. IfSome (seen self.old).tree (λ t. l ≡ entries_of t)) }
        ensures kept { (seen self.new).tree ≡ (seen self.old).tree }
        ensures cause { CountsFault (seen self.old) (seen self.new) result }
        ensures kind { CountsListing (seen self.old).failures (seen self.new).failures result };

    /// The first `most` bytes of a listed file, and never more.
    fn read(&mut self, alloc: Global, path: &str, most: u64) -> Result<Text8, StoreError>
        ensures most { IfOk result (λ b. length b ≤ most) }
        ensures front { IfOk result
            (λ b. IfSome (seen self.old).tree (λ t. b ≡ take most (bytes_at path.now t))) }
        ensures kept { (seen self.new).tree ≡ (seen self.old).tree }
        ensures cause { CountsFault (seen self.old) (seen self.new) result }
        ensures kind { CountsRead path.now (seen self.old).failures (seen self.new).failures
            result };

    /// Gives a path just these bytes, in folders that are made as needed.
    fn write(&mut self, alloc: Global, path: &str, bytes: &[u8]) -> Result<(), StoreError>
        ensures written { OnOk result
            (OfTrees (IsWritten path.now bytes.now) (seen self.old) (seen self.new)) }
        ensures stopped { OnErr result
            (OfTrees (IsOldOrNew path.now bytes.now) (seen self.old) (seen self.new)) }
        ensures cause { CountsFault (seen self.old) (seen self.new) result }
        ensures kind { CountsNeither (seen self.old).failures (seen self.new).failures };

    /// Takes the file at a path away. Where none is there, all stays as it is. (MSBuild Delete
    /// task.)
    fn remove(&mut self, alloc: Global, path: &str) -> Result<(), StoreError>
        ensures removed { OnOk result
            (OfTrees (IsRemoved path.now) (seen self.old) (seen self.new)) }
        ensures stopped { OnErr result
            (OfTrees (IsOldOrGone path.now) (seen self.old) (seen self.new)) }
        ensures cause { CountsFault (seen self.old) (seen self.new) result }
        ensures kind { CountsNeither (seen self.old).failures (seen self.new).failures };

    /// How often it has failed, up to 2^64 - 1.
    fn faults(&self) -> u64
        ensures { result ≡ (seen self.now).fault_count };

    /// Files that are told stand in byte order of their paths, and no path comes twice.
    ghost told_in_order: { (s : Self) → IfSome (seen s).tree (λ t. are_in_order t ≡ true) };
}
