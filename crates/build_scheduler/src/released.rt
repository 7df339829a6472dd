//! What a core holds no longer.

use crate::kept::Kept;
use std::alloc::Global;

/// Ends that were kept for others, and walks of requests that were over at once: nobody needs them
/// any more. A walk has much to drop, so nodes that share a core drop this once they have given the
/// core back.
pub struct Released<W> {
    ends: Vec<Kept<W>>,
    walks: Vec<W>,
}

// A drop that is written out is proved here alone.
impl<W: Drop> Drop for Released<W> {
    fn drop(self) {
        let Released { ends: _, walks: _ } = self;
    }
}

/// No more of either is held until it is taken: then it is dropped at once.
const MOST: usize = 64;

impl<W: Drop> Released<W> {
    pub(crate) fn new(alloc: Global) -> Released<W> {
        Released {
            ends: Vec::new(alloc),
            walks: Vec::new(alloc),
        }
    }

    /// Holds an end, if it is one. Where there is no memory, it is dropped at once.
    pub(crate) fn put_end(&mut self, end: Option<Kept<W>>) {
        put(&mut self.ends, end);
    }

    /// Holds a walk, if it is one. Where there is no memory, it is dropped at once.
    pub(crate) fn put_walk(&mut self, walk: Option<W>) {
        put(&mut self.walks, walk);
    }
}

fn put<T: Drop>(list: &mut Vec<T>, entry: Option<T>) {
    if list.len() == MOST {
        list.clear();
    }
    if let Some(entry) = entry {
        let _ = list.push(entry);
    }
}
