ghost use Rattle.std.specs.Prelude.{◌≡◌, ◌≤◌, None, IfOk, length};
ghost use Rattle.msb_laws.specs.Faults.{Rose};
ghost use Rattle.file_store.specs.Failed.{counted};

use crate::held::Held;
use crate::listed::Listed;
use crate::listing::{look_below, look_in_threads};
use crate::place::{Place, join};
use crate::reading::{Budget, read_file};
use crate::removing::remove_file;
use crate::writing::write_file;
use file_store::{Entry, Store, StoreError};
use msb_values::{List, NoMemory, Text, Text8};
use std::alloc::Global;
use std::io;
use std::io::ErrorKind;
use std::rt::Files;
use std::thread::Threads;

/// A real folder. It tells nothing.
///
/// Its files are the regular files in it and below, without links, each by its path from the
/// folder, with `/` between names. A stamp is the time of the last change, in nanoseconds since
/// 1970, and 0 for an earlier time. A listing reads the files as well, as long as they are within
/// the limits of a load and there is memory for their bytes, so that what it lists can be read
/// later, whatever has vanished since.
#[derive(Drop)]
pub struct DirStore<'a, R: Files> {
    rt: &'a R,
    folder: Text,
    // What was listed ahead, and not yet told.
    ahead: Option<Listed>,
    held: Held,
    faults: u64,
    failed_listings: u64,
    failed_reads: u64,
}

impl<'a, R: Files> DirStore<'a, R> {
    /// The store of a folder, which is given by its path from the working folder.
    pub fn new(rt: &'a R, alloc: Global, folder: &str) -> Result<DirStore<'a, R>, NoMemory>
        ensures { IfOk result (λ s. (s.folder ≡ folder.now) × (s.faults ≡ 0)
            × (s.failed_listings ≡ 0) × (s.failed_reads ≡ 0)) }
    {
        Ok(DirStore {
            rt,
            folder: Text::of(alloc, folder)?,
            ahead: None,
            held: Held::new(alloc),
            faults: 0,
            failed_listings: 0,
            failed_reads: 0,
        })
    }

    fn place(&self, alloc: Global) -> Place<'_, R> {
        Place {
            rt: self.rt,
            alloc,
            folder: self.folder.as_str(),
        }
    }

    // Lists the folder in this thread. Where there is no memory for the bytes of its files, it is
    // listed without them, so that a folder that is too large for a load is told as that.
    fn list_alone(&self, alloc: Global) -> io::Result<Listed> {
        match self.list_within(alloc, &Budget::of_a_load()) {
            Err(error) if error.kind() == ErrorKind::OutOfMemory => {
                self.list_within(alloc, &Budget::spent())
            }
            listed => listed,
        }
    }

    fn list_within(&self, alloc: Global, budget: &Budget) -> io::Result<Listed> {
        let place = self.place(alloc);
        let look = |paths: &[String]| look_below(&place, budget, paths, usize::MAX);
        Listed::of(&place, &look)
    }

    // The first `most` bytes of a file: of those that are held, which are held no more, or else of
    // those in the folder.
    fn take_or_read(&mut self, alloc: Global, path: &str, most: u64) -> io::Result<Vec<u8>>
        ensures most { IfOk result (λ bytes. length bytes.items ≤ most) }
        ensures faults { self.new.faults ≡ self.old.faults }
        ensures listings { self.new.failed_listings ≡ self.old.failed_listings }
        ensures reads { self.new.failed_reads ≡ self.old.failed_reads }
    {
        let mut bytes = match self.held.take(path) {
            Some(bytes) => bytes,
            None => {
                let whole = join(alloc, self.folder.as_str(), path)?;
                read_file(&self.place(alloc), whole.as_str(), 0, most)?
            }
        };
        bytes.truncate(most as usize);
        Ok(bytes)
    }

    // Holds nothing of a path any more that is to be changed.
    fn forget(&mut self, path: &str)
        ensures faults { self.new.faults ≡ self.old.faults }
        ensures listings { self.new.failed_listings ≡ self.old.failed_listings }
        ensures reads { self.new.failed_reads ≡ self.old.failed_reads }
    {
        self.ahead = None;
        let _ = self.held.take(path);
    }

    // What an error of the system is to a caller. All but want of memory are counted.
    fn fault(&mut self, error: io::Error) -> StoreError
        ensures later { self.old.faults ≤ self.new.faults }
        ensures rose { result ≡ StoreError.Failed → Rose self.old.faults self.new.faults }
        ensures listings { self.new.failed_listings ≡ self.old.failed_listings }
        ensures reads { self.new.failed_reads ≡ self.old.failed_reads }
    {
        if error.kind() == ErrorKind::OutOfMemory {
            return StoreError::Memory;
        }
        self.faults = self.faults.saturating_add(1);
        StoreError::Failed
    }

    // What an error of the system in a listing is to a caller.
    fn listing_fault(&mut self, error: io::Error) -> StoreError
        ensures later { self.old.faults ≤ self.new.faults }
        ensures rose { result ≡ StoreError.Failed → Rose self.old.faults self.new.faults }
        ensures later_listings { self.old.failed_listings ≤ self.new.failed_listings }
        ensures listings { result ≡ StoreError.Failed
            → Rose self.old.failed_listings self.new.failed_listings }
        ensures reads { self.new.failed_reads ≡ self.old.failed_reads }
    {
        let fault = self.fault(error);
        if fault == StoreError::Failed {
            self.failed_listings = self.failed_listings.saturating_add(1);
        }
        fault
    }
}

impl<'a, R: Files + Threads + Sync> DirStore<'a, R> {
    /// Lists the folder and reads its files in so many threads, for the next listing, which is the
    /// same as without. Where that fails nothing is kept, so that the listing tells it.
    pub fn read_ahead(&mut self, alloc: Global, threads: usize)
    where
        R::File: Send,
        R::Dir: Send,
        ensures faults { self.new.faults ≡ self.old.faults }
        ensures listings { self.new.failed_listings ≡ self.old.failed_listings }
        ensures reads { self.new.failed_reads ≡ self.old.failed_reads }
    {
        self.ahead = self.list_in_threads(alloc, threads).ok();
    }

    fn list_in_threads(&self, alloc: Global, threads: usize) -> io::Result<Listed>
    where
        R::File: Send,
        R::Dir: Send,
    {
        let place = self.place(alloc);
        let budget = Budget::of_a_load();
        let look = |paths: &[String]| look_in_threads(&place, &budget, paths, threads);
        Listed::of(&place, &look)
    }
}

impl<'a, R: Files> Store for DirStore<'a, R> {
    /// All its reads count as reads of a path.
    ghost seen = { λ s. record {
      tree = None;
      fault_count = s.faults;
      failures = counted s.failed_listings s.failed_reads;
    } };

    ghost told_in_order = { λ _. tt };

    /// A name that is no UTF-8 fails the listing.
    fn list(&mut self, alloc: Global) -> Result<List<Entry>, StoreError> {
        let listed = match self.ahead.take() {
            Some(listed) => Ok(listed),
            None => self.list_alone(alloc),
        };
        match listed {
            Ok(listed) => {
                self.held = listed.held;
                Ok(listed.entries)
            }
            Err(error) => Err(self.listing_fault(error)),
        }
    }

    fn read(&mut self, alloc: Global, path: &str, most: u64) -> Result<Text8, StoreError> {
        match self.take_or_read(alloc, path, most) {
            Ok(bytes) => Ok(Text8::from(bytes)),
            Err(error) => {
                let fault = self.fault(error);
                if fault == StoreError::Failed {
                    self.failed_reads = self.failed_reads.saturating_add(1);
                }
                Err(fault)
            }
        }
    }

    fn write(&mut self, alloc: Global, path: &str, bytes: &[u8]) -> Result<(), StoreError> {
        self.forget(path);
        match write_file(&(self.rt, alloc), self.folder.as_str(), path, bytes) {
            Ok(()) => Ok(()),
            Err(error) => Err(self.fault(error)),
        }
    }

    fn remove(&mut self, alloc: Global, path: &str) -> Result<(), StoreError> {
        self.forget(path);
        match remove_file(&(self.rt, alloc), self.folder.as_str(), path) {
            Ok(()) => Ok(()),
            Err(error) => Err(self.fault(error)),
        }
    }

    fn faults(&self) -> u64 {
        self.faults
    }
}
