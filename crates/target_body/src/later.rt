ghost use Rattle.std.specs.Prelude.{◌≡◌, ◌∷◌, [], IfOk, MatchOption};

use msb_expand::Bucket;
use msb_values::{Copied, List, NoMemory};
use std::alloc::Global;
use std::marker::Model;
use target_texts::without_lists;

/// Buckets that are still to come. (MSBuild batching.)
pub(crate) struct Buckets {
    /// The next one last.
    buckets: Vec<Bucket>,
}

// A drop that is written out is proved here alone.
impl Drop for Buckets {
    fn drop(self) {
        let Buckets { buckets: _ } = self;
    }
}

impl Model for Buckets {
    ghost use Rattle.std.specs.Prelude.{List, reverse};
    ghost use Rattle.msb_expand.specs.declared.lens.Bucket.{Bucket};

    ghost Value = { List Bucket };

    ghost view = { λ later. reverse later.buckets.items };
}

impl Buckets {
    pub(crate) fn of(buckets: List<Bucket>) -> Buckets
        ensures { result ≡ buckets }
    {
        let mut buckets = buckets.into_vec();
        buckets.reverse();
        Buckets { buckets }
    }

    /// Takes the next one.
    pub(crate) fn next(&mut self) -> Option<Bucket>
        ensures { MatchOption result (self.old ≡ []) (λ bucket. self.old ≡ bucket ∷ self.new) }
    {
        self.buckets.pop()
    }

    pub(crate) fn allocator(&self) -> Global {
        *self.buckets.allocator()
    }
}

impl Copied for Buckets {
    fn copy(&self) -> Result<Buckets, NoMemory> {
        Ok(Buckets {
            buckets: copies_of(self.allocator(), &self.buckets)?,
        })
    }
}

fn copies_of(alloc: Global, buckets: &[Bucket]) -> Result<Vec<Bucket>, NoMemory>
    ensures { IfOk result (λ copies. copies.items ≡ buckets.now) }
{
    let mut copies = Vec::with_capacity(alloc, buckets.len())?;
    for bucket in buckets {
        copies.push(copy_bucket(alloc, bucket)?)?;
    }
    Ok(copies)
}

/// An equal bucket.
pub(crate) fn copy_bucket(alloc: Global, bucket: &Bucket) -> Result<Bucket, NoMemory>
    ensures { IfOk result (λ copy. copy ≡ bucket.now) }
{
    let values = without_lists(alloc, bucket)?.values;
    Ok(Bucket {
        values,
        lists: bucket.lists.copy()?,
    })
}
