ghost use Rattle.std.specs.Prelude.{◌≡◌};
ghost use Rattle.file_store.specs.Limits.{Tells, entry_fault, first_fault, limit_fault, total_size};

use crate::{Entry, LoadFault};
use msb_paths::is_normal;
use msb_values::Copied;
use std::alloc::Global;

/// How many files a listing may have.
pub const MOST_FILES: usize = 20_000;

/// How many bytes all files may have together: 256 MiB.
pub const MOST_BYTES: u64 = 268_435_456;

/// How many bytes one file may have: 16 MiB.
pub const MOST_FILE_BYTES: u64 = 16_777_216;

/// Refuses a listing that passes a limit. The number of files is looked at first, then their bytes
/// in all, and then each entry in order.
pub fn check_limits(alloc: Global, entries: &[Entry]) -> Result<(), LoadFault>
    ensures { Tells (limit_fault entries.now) result }
{
    if entries.len() > MOST_FILES {
        return Err(LoadFault::Files(entries.len() as u64));
    }
    let total = total_size(entries);
    if total > u128::from(MOST_BYTES) {
        return Err(LoadFault::Bytes(total));
    }
    check_entries(alloc, entries)
}

// The sizes of up to 2^64 files fit a u128.
fn total_size(entries: &[Entry]) -> u128
    ensures { result ≡ total_size entries.now }
{
    let mut total = 0;
    for entry in entries {
        total += u128::from(entry.size);
    }
    total
}

fn check_entries(alloc: Global, entries: &[Entry]) -> Result<(), LoadFault>
    ensures { Tells (first_fault entries.now) result }
{
    for entry in entries {
        check_entry(alloc, entry)?;
    }
    Ok(())
}

fn check_entry(alloc: Global, entry: &Entry) -> Result<(), LoadFault>
    ensures { Tells (entry_fault entry.now) result }
{
    if !is_normal(entry.path.as_str()) {
        return Err(LoadFault::BadPath(entry.path.copy()?));
    }
    if entry.size > MOST_FILE_BYTES {
        return Err(LoadFault::Large(entry.path.copy()?));
    }
    Ok(())
}
