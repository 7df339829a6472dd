//! Work on a list that is shared out to threads. Each takes some of the list at a time, whenever it
//! has done what it took before, so that none waits for one that has more to do.
use std::alloc::{AllocError, Global};
use std::sync::atomic::{AtomicUsize, Ordering};
use std::thread::{self, Threads};

/// How many things of a list a thread takes at a time: few, so that all threads end together.
const STRETCH: usize = 16;

/// Calls `work` at each stretch of a list, in so many threads, and gives the results in the order
/// of the list. One thread, or a list of one stretch, starts none: this thread does it.
pub(crate) fn in_stretches<R: Threads + Sync, T: Sync, X: Send + Drop, F: Fn(&[T]) -> X + Sync>(
    rt: &R,
    alloc: Global,
    list: &[T],
    threads: usize,
    work: &F,
) -> Result<Vec<(usize, X)>, AllocError>
    requires { F.IsAlwaysCallable work.now }
{
    let taken = AtomicUsize::new(0);
    let threads = threads.min(list.len().div_ceil(STRETCH));
    let take = |_: usize| -> Result<Vec<(usize, X)>, AllocError>
        requires { F.IsAlwaysCallable work.now }
    { take_stretches(alloc, list, &taken, work) };
    let mut parts = Vec::new(alloc);
    for part in thread::map_indices(rt, alloc, threads, &take)? {
        parts.append(&mut part?)?;
    }
    parts.sort_unstable_by_key(|part: &(usize, X)| part.0);
    Ok(parts)
}

// Takes stretches and works on them until none is left.
fn take_stretches<T, X: Drop, F: Fn(&[T]) -> X>(
    alloc: Global,
    list: &[T],
    taken: &AtomicUsize,
    work: &F,
) -> Result<Vec<(usize, X)>, AllocError>
    requires { F.IsAlwaysCallable work.now }
{
    let mut done = Vec::new(alloc);
    for _ in 0..u64::MAX {
        let Some((start, stretch)) = next_stretch(list, taken) else {
            break;
        };
        done.push((start, work(stretch)))?;
    }
    Ok(done)
}

// The next stretch that nobody has taken, and where it starts.
fn next_stretch<'a, T>(list: &'a [T], taken: &AtomicUsize) -> Option<(usize, &'a [T])> {
    let start = taken.fetch_add(STRETCH, Ordering::SeqCst);
    if start >= list.len() {
        return None;
    }
    let end = start.saturating_add(STRETCH).min(list.len());
    Some((start, list.get(start..end)?))
}
