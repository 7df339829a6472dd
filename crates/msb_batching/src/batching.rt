ghost use Rattle.std.specs.Prelude.{◌≡◌, map, IfOk, option_copied};
ghost use Rattle.msb_expand.specs.Scenes.{scene_of};
ghost use Rattle.msb_batching.specs.Answers.{Gives};
ghost use Rattle.msb_batching.specs.Buckets.{buckets_value, batched_value, buckets_of, or_this};
ghost use Rattle.msb_batching.specs.Growing.{spoken_of};
ghost use Rattle.msb_batching.specs.Rows.{pairs_of};
ghost use Rattle.msb_batching.specs.Numbers.{numbered_list_of};
ghost use Rattle.msb_batching.specs.Filling.{filled_with, buckets_by};

use crate::BatchFault;
use crate::filling::{begin_buckets, empty_tuple, with_list};
use crate::mentions::Mentions;
use crate::numbered::{NumberedList, spread};
use crate::reference::Reference;
use crate::rows::{Batch, batches};
use crate::tuples::Tuples;
use msb_expand::{Bucket, Lens};
use msb_expression::Expr;
use msb_values::{Copied, List, Name, NoMemory, Text};
use std::alloc::Global;

/// The buckets of an element in a target that has these texts, in order: for each bucket the
/// element is treated once. A reference `%(..)` has one value in a bucket, and each batched list
/// only the items that have it. `own` is the item type of an item element.
///
/// `%(X.M)` batches list X by metadata M, and `%(M)` every list that the texts name by `@(..)`, and
/// `own`. Values are compared without case, and have their first spelling. Where no item is, there
/// is one bucket, with empty values. (MSBuild batching.)
pub fn buckets(
    alloc: Global,
    lens: &Lens<'_>,
    texts: &[&Expr],
    own: Option<&Name>,
) -> Result<List<Bucket>, BatchFault>
    ensures { Gives result
        (buckets_value (scene_of lens.now) (map (λ text. text.now) texts.now)
        (option_copied own.entry)) }
{
    let mentions = Mentions::of(alloc, texts, own)?;
    if let Some(name) = mentions.listless() {
        return Err(BatchFault::NoList(name.copy()?));
    }
    batch(alloc, lens, &mentions)
}

/// The buckets of an element that speaks of this.
fn batch(alloc: Global, lens: &Lens<'_>, mentions: &Mentions) -> Result<List<Bucket>, BatchFault>
    ensures { Gives result (batched_value (scene_of lens.now) (spoken_of mentions.now)) }
{
    let references = mentions.references.as_slice();
    let batches = batches(alloc, lens, mentions)?;
    Ok(bucket_batches(alloc, references, batches)?)
}

/// A bucket for each tuple of these lists' items, or one for the tuple whose values are empty.
fn bucket_batches(
    alloc: Global,
    references: &[Reference],
    batches: Vec<Batch>,
) -> Result<List<Bucket>, NoMemory>
    ensures { IfOk result (λ buckets. buckets
        ≡ buckets_of references.now (map pairs_of batches.items)) }
{
    let mut tuples = Tuples::new(alloc);
    let lists = tuples.number_lists(alloc, batches)?;
    let spelled = or_this(empty_tuple(alloc, references)?, tuples.spelled)?;
    Ok(fill_buckets(alloc, references, &spelled, lists)?)
}

/// The tuples, or this one where there is none.
fn or_this(tuple: List<Text>, tuples: Vec<List<Text>>) -> Result<Vec<List<Text>>, NoMemory>
    ensures { IfOk result (λ some. some.items ≡ or_this tuple tuples.items) }
{
    let mut some = tuples;
    if some.is_empty() {
        some.push(tuple)?;
        return Ok(some);
    }
    Ok(some)
}

/// A bucket for each of these tuples, with its items of each list.
fn fill_buckets(
    alloc: Global,
    references: &[Reference],
    tuples: &[List<Text>],
    lists: Vec<NumberedList>,
) -> Result<List<Bucket>, NoMemory>
    ensures { IfOk result (λ buckets. buckets
        ≡ buckets_by references.now tuples.now (map numbered_list_of lists.items)) }
{
    let buckets = begin_buckets(alloc, references, tuples)?;
    Ok(List::from(fill(alloc, buckets, lists, tuples)?))
}

/// The buckets of these tuples, with their items of each list.
fn fill(
    alloc: Global,
    buckets: Vec<Bucket>,
    lists: Vec<NumberedList>,
    tuples: &[List<Text>],
) -> Result<Vec<Bucket>, NoMemory>
    ensures { IfOk result (λ filled. filled.items
        ≡ filled_with tuples.now buckets.items (map numbered_list_of lists.items)) }
{
    let mut filled = buckets;
    for list in lists {
        let items = spread(alloc, list.items, tuples)?;
        filled = with_list(alloc, filled, &list.kind, items)?;
    }
    Ok(filled)
}
