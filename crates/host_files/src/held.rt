//! The bytes of files that were read with their listing, until each is read for itself.
use crate::reading::ReadFile;
use std::alloc::Global;

/// The bytes of files by their paths. They are taken in the order of the listing without a search.
#[derive(Drop)]
pub(crate) struct Held {
    // The last one of the listing comes first.
    files: Vec<ReadFile>,
}

impl Held {
    pub(crate) fn new(alloc: Global) -> Held {
        Held {
            files: Vec::new(alloc),
        }
    }

    /// These files, which are in the order of their listing.
    pub(crate) fn of(mut files: Vec<ReadFile>) -> Held {
        files.reverse();
        Held { files }
    }

    /// Takes the bytes of a file, if they are held. They are held no more.
    pub(crate) fn take(&mut self, path: &str) -> Option<Vec<u8>> {
        let ReadFile { path: _, bytes } = match self.files.last() {
            Some(next) if next.path.as_str() == path => self.files.pop()?,
            _ => self.remove(path)?,
        };
        Some(bytes)
    }

    fn remove(&mut self, path: &str) -> Option<ReadFile> {
        let order = |file: &ReadFile| path.cmp(file.path.as_str());
        match self.files.binary_search_by(order) {
            Ok(at) => Some(self.files.remove(at)),
            Err(_) => None,
        }
    }
}
