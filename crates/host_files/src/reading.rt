//! The bytes of the files of a real folder. No contract says what a folder holds, so all here is
//! trusted.
use crate::place::Place;
use file_store::{MOST_BYTES, MOST_FILE_BYTES, MOST_FILES};
use std::io::Read;
use std::rt::Files;
use std::sync::atomic::{AtomicU64, AtomicUsize, Ordering};
use std::{fs, io};

/// A file that was read with a listing: its path, and its bytes.
#[derive(Drop)]
pub(crate) struct ReadFile {
    pub(crate) path: String,
    pub(crate) bytes: Vec<u8>,
}

/// How much is read with a listing, by all threads together: what a load takes. Once the files that
/// were found pass one of its limits, nothing more is read.
#[derive(Drop)]
pub(crate) struct Budget {
    files: AtomicUsize,
    bytes: AtomicU64,
}

impl Budget {
    pub(crate) fn of_a_load() -> Budget {
        Budget {
            files: AtomicUsize::new(0),
            bytes: AtomicU64::new(0),
        }
    }

    /// By this one nothing is read.
    pub(crate) fn spent() -> Budget {
        Budget {
            files: AtomicUsize::new(MOST_FILES),
            bytes: AtomicU64::new(0),
        }
    }

    /// Whether a file of this size may be read as well, which counts it. One that is too large for
    /// a load counts as more than all bytes.
    pub(crate) fn allows(&self, size: u64) -> bool {
        let size = if size > MOST_FILE_BYTES {
            MOST_BYTES + 1
        } else {
            size
        };
        let files_before = self.files.fetch_add(1, Ordering::SeqCst);
        let bytes_before = self.bytes.fetch_add(size, Ordering::SeqCst);
        files_before < MOST_FILES && bytes_before.saturating_add(size) <= MOST_BYTES
    }
}

/// The first `most` bytes of the file at a path. One read gives as many as are expected, where the
/// file has them.
pub(crate) fn read_file<R: Files>(
    place: &Place<'_, R>,
    whole: &str,
    expected: usize,
    most: u64,
) -> io::Result<Vec<u8>> {
    let mut file = fs::open(place.rt, whole)?;
    let mut bytes = vec![in place.alloc; 0; expected]?;
    let count = file.read(&mut bytes).unwrap_or(0);
    bytes.truncate(count);
    let left = most.saturating_sub(count as u64);
    if left > 0 {
        file.take(left).read_to_end(&mut bytes)?;
    }
    Ok(bytes)
}
