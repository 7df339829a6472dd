ghost use Rattle.std.specs.Prelude.{◌≡◌, IfOk};
ghost use Rattle.target_texts.specs.Returned.{without_lists};

use msb_expand::Bucket;
use msb_values::{Copied, List, Name, Named, NoMemory};
use std::alloc::Global;

/// A bucket of a target without its lists: the scope has what the children have left of these.
/// (MSBuild batching.)
pub fn without_lists(alloc: Global, bucket: &Bucket) -> Result<Bucket, NoMemory>
    ensures { IfOk result (λ alone. alone ≡ without_lists bucket.now) }
{
    let mut values = List::new(alloc);
    for (kind, name, value) in bucket.values.as_slice() {
        values.push((copy_name(kind)?, name.copy()?, value.copy()?))?;
    }
    Ok(Bucket {
        values,
        lists: Named::new(alloc),
    })
}

fn copy_name(kind: &Option<Name>) -> Result<Option<Name>, NoMemory>
    ensures { IfOk result (λ copy. copy ≡ kind.now) }
{
    match kind {
        Some(kind) => Ok(Some(kind.copy()?)),
        None => Ok(None),
    }
}
