ghost use Rattle.std.specs.Prelude.{
  ◌≡◌,
  ◌↔◌,
  Some,
  Ok,
  Err,
  IfOk,
  OnOk,
  OnErr,
  length,
  take,
  ◌<◌,
  ◌≤◌,
  ◌-◌,
  ◌^◌,
  true,
  IsTrue,
  IfSome,
};
ghost use Rattle.std.specs.List.{All, Any};
ghost use Rattle.std.specs.Option.{IfNone};
ghost use Rattle.msb_laws.specs.Faults.{HasCause};
ghost use Rattle.file_store.specs.Files.{bytes_at};
ghost use Rattle.file_store.specs.Entries.{entries_of, are_listed_in_order};
ghost use Rattle.file_store.specs.Writes.{IsWritten, IsRemoved};
ghost use Rattle.file_store.specs.Failed.{has_failed, CountsListing, CountsRead, CountsNeither};
ghost use Rattle.file_store.specs.declared.store.StoreError.TheVariants.{Failed};

use crate::{Entry, File, Store, StoreError, Tree};
use msb_values::{Copied, List, NoMemory, Text, Text8};
use std::alloc::Global;

/// A store in memory, which tells its files.
///
/// Its calls of `list`, `read`, `write` and `remove` are numbered from 0, and some numbers may be
/// chosen to fail.
pub struct MemStore {
    tree: Tree,
    fail: Vec<u64>,
    calls: u64,
    faults: u64,
    failed_listings: u64,
    failed_reads: u64,
}

// A drop that is written out is proved here alone.
impl Drop for MemStore {
    fn drop(self) {
        let MemStore {
            tree: _,
            fail: _,
            calls: _,
            faults: _,
            failed_listings: _,
            failed_reads: _,
        } = self;
    }
}

impl MemStore {
    ghost use Rattle.file_store.specs.Memory.{IsNewStore, IsToFail, Counts, files_in};

    /// A store of these files, in which the calls of the numbers in `fail` are to fail.
    pub fn new(_alloc: Global, tree: Tree, fail: Vec<u64>) -> Result<MemStore, NoMemory>
        ensures { IfOk result (IsNewStore tree.files fail.items) }
    {
        Ok(MemStore {
            tree,
            fail,
            calls: 0,
            faults: 0,
            failed_listings: 0,
            failed_reads: 0,
        })
    }

    // Counts a call, and says whether it is to fail.
    fn is_failing(&mut self) -> bool
        ensures exact { IsTrue result ↔ IsToFail self.old }
        ensures tree { files_in self.new ≡ files_in self.old }
        ensures counts { Counts result self.old self.new }
        ensures listings { self.new.failed_listings ≡ self.old.failed_listings }
        ensures reads { self.new.failed_reads ≡ self.old.failed_reads }
        ensures later { self.old.faults ≤ self.new.faults }
    {
        let call = self.calls;
        self.calls = self.calls.saturating_add(1);
        if self.fail.contains(&call) {
            self.faults = self.faults.saturating_add(1);
            return true;
        }
        false
    }

    /// The files that it holds.
    pub fn tree(&self) -> &Tree
        ensures { result.now.files ≡ files_in self.now }
    {
        &self.tree
    }
}

impl Store for MemStore {
    ghost use Rattle.file_store.specs.Memory.{files_in, failures_of, IsToFail, IsNoWrite, Counts};

    ghost seen = { λ s. record {
      tree = Some (files_in s);
      fault_count = s.faults;
      failures = failures_of s;
    } };

    ghost told_in_order = { λ s. s.tree.in_order };

    /// It fails exactly at the chosen numbers.
    fn list(&mut self, alloc: Global) -> Result<List<Entry>, StoreError>
        ensures order { IfOk result (λ l. are_listed_in_order l ≡ true) }
        ensures all { IfOk result (λ l. l ≡ entries_of (files_in self.old)) }
        ensures kept { files_in self.new ≡ files_in self.old }
        ensures cause { HasCause Failed self.old.faults self.new.faults result }
        ensures kind { CountsListing (failures_of self.old) (failures_of self.new) result }
        ensures failed { (result ≡ Err Failed) ↔ IsToFail self.old }
        ensures counts { Counts (has_failed result) self.old self.new }
    {
        if self.is_failing() {
            self.failed_listings = self.failed_listings.saturating_add(1);
            return Err(StoreError::Failed);
        }
        Ok(entries(alloc, self.tree.files.as_slice())?)
    }

    /// It fails exactly at the chosen numbers. A path without a file has no bytes.
    fn read(&mut self, alloc: Global, path: &str, most: u64) -> Result<Text8, StoreError>
        ensures most { IfOk result (λ b. length b ≤ most) }
        ensures front { IfOk result (λ b. b ≡ take most (bytes_at path.now (files_in self.old))) }
        ensures kept { files_in self.new ≡ files_in self.old }
        ensures cause { HasCause Failed self.old.faults self.new.faults result }
        ensures kind { CountsRead path.now (failures_of self.old) (failures_of self.new) result }
        ensures failed { (result ≡ Err Failed) ↔ IsToFail self.old }
        ensures counts { Counts (has_failed result) self.old self.new }
    {
        if self.is_failing() {
            self.failed_reads = self.failed_reads.saturating_add(1);
            return Err(StoreError::Failed);
        }
        Ok(front(alloc, &self.tree, path, most)?)
    }

    /// It fails exactly at the chosen numbers, and where a file has the last stamp. The files then
    /// are as they were.
    fn write(&mut self, alloc: Global, path: &str, bytes: &[u8]) -> Result<(), StoreError>
        ensures written { OnOk result
            (IsWritten path.now bytes.now (files_in self.old) (files_in self.new)) }
        ensures stopped { OnErr result (files_in self.new ≡ files_in self.old) }
        ensures cause { HasCause Failed self.old.faults self.new.faults result }
        ensures kind { CountsNeither (failures_of self.old) (failures_of self.new) }
        ensures failed { (result ≡ Err Failed) ↔ IsNoWrite self.old }
        ensures counts { Counts (has_failed result) self.old self.new }
    {
        if self.is_failing() {
            return Err(StoreError::Failed);
        }
        match next_stamp(self.tree.files.as_slice()) {
            Some(stamp) => {
                let path = Text::of(alloc, path)?;
                let bytes = Text8::of(alloc, bytes)?;
                Ok(self.tree.put(alloc, File { path, bytes, stamp })?)
            }
            None => {
                self.faults = self.faults.saturating_add(1);
                Err(StoreError::Failed)
            }
        }
    }

    /// It fails exactly at the chosen numbers. The files then are as they were.
    fn remove(&mut self, alloc: Global, path: &str) -> Result<(), StoreError>
        ensures removed { OnOk result (IsRemoved path.now (files_in self.old) (files_in self.new)) }
        ensures stopped { OnErr result (files_in self.new ≡ files_in self.old) }
        ensures cause { HasCause Failed self.old.faults self.new.faults result }
        ensures kind { CountsNeither (failures_of self.old) (failures_of self.new) }
        ensures failed { (result ≡ Err Failed) ↔ IsToFail self.old }
        ensures counts { Counts (has_failed result) self.old self.new }
    {
        if self.is_failing() {
            return Err(StoreError::Failed);
        }
        self.tree.remove(alloc, path);
        Ok(())
    }

    fn faults(&self) -> u64 {
        self.faults
    }
}

fn entries(alloc: Global, files: &[File]) -> Result<List<Entry>, NoMemory>
    ensures { IfOk result (λ l. l ≡ entries_of files.now) }
{
    let mut all = List::new(alloc);
    for file in files {
        all.push(Entry {
            path: file.path.copy()?,
            size: file.bytes.len() as u64,
            stamp: file.stamp,
        })?;
    }
    Ok(all)
}

fn front(alloc: Global, tree: &Tree, path: &str, most: u64) -> Result<Text8, NoMemory>
    ensures { IfOk result (λ b. b ≡ take most (bytes_at path.now tree.now.files)) }
{
    match tree.find(path) {
        Some(file) => {
            let bytes = file.bytes.as_bytes();
            let end = bytes.len().min(most as usize);
            Text8::of(alloc, &bytes[..end])
        }
        None => Ok(Text8::new(alloc)),
    }
}

// A stamp that is greater than all others, if there is one.
fn next_stamp(files: &[File]) -> Option<u64>
    ensures none { IfNone result (Any (λ f. f.stamp ≡ 2 ^ 64 - 1) files.now) }
    ensures newest { IfSome result (λ stamp. All (λ f. f.stamp < stamp) files.now) }
{
    let mut next = 0;
    for file in files {
        if next <= file.stamp {
            next = file.stamp.checked_add(1)?;
        }
    }
    Some(next)
}
