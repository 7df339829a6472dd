ghost use Rattle.std.specs.Prelude.{◌≡◌, [], map, IfOk, option_to_list};
ghost use Rattle.std.specs.BTreeMap.{insert_entry};
ghost use Rattle.msb_batching.specs.Buckets.{values_of};
ghost use Rattle.msb_batching.specs.Filling.{bucket_begun, put_beside, with_items};

use crate::reference::Reference;
use msb_expand::Bucket;
use msb_values::{Copied, Item, List, Name, Named, NoMemory, SharedItems, Text};
use std::alloc::Global;

/// The empty value for each reference.
pub(crate) fn empty_tuple(alloc: Global, references: &[Reference]) -> Result<List<Text>, NoMemory>
    ensures { IfOk result (λ tuple. tuple ≡ map (λ reference. []) references.now) }
{
    let mut tuple = List::new(alloc);
    for _reference in references {
        tuple.push(Text::of(alloc, "")?)?;
    }
    Ok(tuple)
}

/// A bucket for each tuple, which sees no list yet.
pub(crate) fn begin_buckets(
    alloc: Global,
    references: &[Reference],
    tuples: &[List<Text>],
) -> Result<Vec<Bucket>, NoMemory>
    ensures { IfOk result (λ buckets. buckets.items
        ≡ map (bucket_begun references.now) tuples.now) }
{
    let mut buckets = Vec::with_capacity(alloc, tuples.len())?;
    for tuple in tuples {
        buckets.push(Bucket {
            values: values(alloc, references, tuple.as_slice())?,
            lists: Named::new(alloc),
        })?;
    }
    Ok(buckets)
}

/// Each reference with its value.
fn values(
    alloc: Global,
    references: &[Reference],
    tuple: &[Text],
) -> Result<List<(Option<Name>, Name, Text)>, NoMemory>
    ensures { IfOk result (λ values. values ≡ values_of references.now tuple.now) }
{
    let mut values = List::new(alloc);
    for (reference, value) in references.iter().zip(tuple) {
        values.push((
            copy_kind(&reference.kind)?,
            reference.name.copy()?,
            value.copy()?,
        ))?;
    }
    Ok(values)
}

fn copy_kind(kind: &Option<Name>) -> Result<Option<Name>, NoMemory>
    ensures { IfOk result (λ copy. copy ≡ kind.now) }
{
    match kind {
        Some(kind) => Ok(Some(kind.copy()?)),
        None => Ok(None),
    }
}

/// The buckets, each with its items of a list.
pub(crate) fn with_list(
    alloc: Global,
    buckets: Vec<Bucket>,
    kind: &Name,
    lists: Vec<List<Item>>,
) -> Result<Vec<Bucket>, NoMemory>
    ensures { IfOk result (λ filled. filled.items ≡ put_beside kind.now buckets.items lists.items) }
{
    let mut filled = Vec::with_capacity(alloc, buckets.len())?;
    let mut lists = lists.into_iter();
    for bucket in buckets {
        filled.push(with_items(alloc, bucket, kind, lists.next())?)?;
    }
    Ok(filled)
}

fn with_items(
    alloc: Global,
    bucket: Bucket,
    kind: &Name,
    items: Option<List<Item>>,
) -> Result<Bucket, NoMemory>
    ensures { IfOk result (λ filled. filled ≡ with_items kind.now bucket items) }
{
    let mut bucket = bucket;
    match items {
        Some(items) => {
            let items = SharedItems::of(alloc, items)?;
            bucket.lists.insert(kind.copy()?, items)?;
            Ok(bucket)
        }
        None => Ok(bucket),
    }
}
