ghost use Rattle.std.specs.Prelude.{
  ◌≡◌,
  ◌<◌,
  ◌≤◌,
  ◌*◌,
  ℕ,
  List,
  length,
  replicate,
  slice_index_or,
  slice_set,
  IfOk,
};

use msb_values::{Copied, List, NoMemory, Shared};
use std::alloc::Global;
use std::marker::Model;

/// How many entries stand in a chunk at most.
const MOST: usize = 256;

/// An array whose copies share its entries: a copy takes one handle, and a write copies one chunk
/// and the list of the chunks.
pub struct SharedArray<T> {
    /// How many entries stand in a chunk: in a short array, all of them.
    width: usize,
    chunks: Shared<List<Shared<List<T>>>>,
}

// A drop that is written out is proved here alone.
impl<T: Drop> Drop for SharedArray<T> {
    fn drop(self) {
        let SharedArray {
            width: _,
            chunks: _,
        } = self;
    }
}

impl<T> Model for SharedArray<T> {
    ghost use Rattle.std.specs.Prelude.{List};
    ghost use Rattle.target_order.specs.Chunks.{joined, AreFull};

    ghost Value = { List T };

    ghost view = { λ a. joined a.chunks };

    ghost invariant = { λ a. AreFull a.width a.chunks };
}

impl<T: Copy + Drop> SharedArray<T> {
    /// An array of at least so many entries, each of them this one.
    pub fn of(alloc: Global, entry: T, count: usize) -> Result<SharedArray<T>, NoMemory>
        ensures long { IfOk result (λ a. count ≤ length a) }
        ensures same { IfOk result (λ a. a ≡ replicate (length a) entry) }
    {
        let (width, number) = layout_for(count);
        let chunk = Shared::new(alloc, List::from(repeat(alloc, entry, width)?))?;
        let mut chunks = List::new(alloc);
        for _ in 0..number {
            chunks.push(chunk.copy()?)?;
        }
        Ok(SharedArray {
            width,
            chunks: Shared::new(alloc, chunks)?,
        })
    }

    pub fn get(&self, index: usize) -> T
        requires { index < length self.now }
        ensures { (default : T) → result ≡ slice_index_or self.now index default }
    {
        let chunk = self.chunks.get().as_slice()[index / self.width]
            .get()
            .as_slice();
        chunk[index % self.width]
    }

    /// The array with this entry at this index.
    pub fn with(&self, alloc: Global, index: usize, entry: T) -> Result<SharedArray<T>, NoMemory>
        requires { index < length self.now }
        ensures { IfOk result (λ a. a ≡ slice_set self.now index entry) }
    {
        let at = index / self.width;
        let mut entries = copy_entries(alloc, self.chunks.get().as_slice()[at].get().as_slice())?;
        entries[index % self.width] = entry;
        let mut chunks = self.chunks.get().copy()?.into_vec();
        chunks[at] = Shared::new(alloc, List::from(entries))?;
        Ok(SharedArray {
            width: self.width,
            chunks: Shared::new(alloc, List::from(chunks))?,
        })
    }
}

impl<T> Copied for SharedArray<T> {
    fn copy(&self) -> Result<SharedArray<T>, NoMemory> {
        Ok(SharedArray {
            width: self.width,
            chunks: self.chunks.copy()?,
        })
    }
}

/// How many entries stand in a chunk of an array of so many, and how many chunks it has.
fn layout_for(count: usize) -> (usize, usize)
    ensures some { 0 < result.0 }
    ensures enough { count ≤ result.1 * result.0 }
{
    if count < MOST {
        // Indices are divided by the width, so it isn't 0 in an empty array either.
        (count.max(1), 1)
    } else {
        (MOST, count.div_ceil(MOST))
    }
}

/// The entries of a chunk, each of them this one.
fn repeat<T: Copy + Drop>(alloc: Global, entry: T, width: usize) -> Result<Vec<T>, NoMemory>
    ensures { IfOk result (λ v. v.items ≡ replicate width entry) }
{
    let mut entries = Vec::with_capacity(alloc, width)?;
    for _ in 0..width {
        entries.push(entry)?;
    }
    Ok(entries)
}

fn copy_entries<T: Copy + Drop>(alloc: Global, entries: &[T]) -> Result<Vec<T>, NoMemory>
    ensures { IfOk result (λ v. v.items ≡ entries.now) }
{
    let mut copies = Vec::with_capacity(alloc, entries.len())?;
    for entry in entries {
        copies.push(*entry)?;
    }
    Ok(copies)
}
