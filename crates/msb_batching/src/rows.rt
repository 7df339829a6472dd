ghost use Rattle.std.specs.Prelude.{◌≡◌, map, is_some, IfOk};
ghost use Rattle.msb_values.specs.Pairs.{value_at};
ghost use Rattle.msb_expand.specs.Scenes.{scene_of, defaults_at};
ghost use Rattle.msb_batching.specs.declared.faults.BatchFault.TheVariants.{NoValue};
ghost use Rattle.msb_batching.specs.Answers.{Gives, GivesAs};
ghost use Rattle.msb_batching.specs.Values.{
  metadata_for,
  has_metadata,
  value_for,
  tuple_of,
  rows_of,
  batch_of,
  batches_of,
};
ghost use Rattle.msb_batching.specs.Growing.{spoken_of};
ghost use Rattle.msb_batching.specs.Rows.{row_of, pairs_of};

use crate::BatchFault;
use crate::mentions::Mentions;
use crate::reference::Reference;
use msb_expand::{Lens, is_well_known, metadata};
use msb_values::{Copied, Item, List, Name, NoMemory, Text};
use std::alloc::Global;

/// An item with its values at the references.
#[derive(Drop)]
pub(crate) struct Row {
    pub(crate) item: Item,
    pub(crate) tuple: List<Text>,
}

/// A batched list with its items.
#[derive(Drop)]
pub(crate) struct Batch {
    pub(crate) kind: Name,
    pub(crate) rows: Vec<Row>,
}

/// The batched lists with their items, or the first fault: list by list, item by item, reference by
/// reference.
pub(crate) fn batches(
    alloc: Global,
    lens: &Lens<'_>,
    mentions: &Mentions,
) -> Result<Vec<Batch>, BatchFault>
    ensures { GivesAs (λ batches. map pairs_of batches.items) result
        (batches_of (scene_of lens.now) (spoken_of mentions.now)) }
{
    let kinds = mentions.batched_lists(alloc)?;
    let mut batches = Vec::new(alloc);
    for kind in &kinds {
        batches.push(read_batch(alloc, lens, mentions, *kind)?)?;
    }
    Ok(batches)
}

fn read_batch(
    alloc: Global,
    lens: &Lens<'_>,
    mentions: &Mentions,
    kind: &Name,
) -> Result<Batch, BatchFault>
    ensures { GivesAs pairs_of result
        (batch_of (scene_of lens.now) (spoken_of mentions.now) kind.now) }
{
    let list = BatchedList {
        lens,
        kind,
        is_named: mentions.named.contains(kind),
        references: mentions.references.as_slice(),
    };
    let rows = list.rows(alloc, lens.items(kind))?;
    Ok(Batch {
        kind: kind.copy()?,
        rows,
    })
}

/// A batched list, of whose items the values are read.
#[derive(Clone, Copy)]
struct BatchedList<'l, 'a> {
    lens: &'l Lens<'a>,
    kind: &'l Name,
    /// Whether an item reference names it, or it is the element's own.
    is_named: bool,
    references: &'l [Reference],
}

impl<'l, 'a> BatchedList<'l, 'a> {
    fn rows(&self, alloc: Global, items: &[Item]) -> Result<Vec<Row>, BatchFault>
        ensures { GivesAs (λ rows. map row_of rows.items) result
            (rows_of (scene_of self.now.lens.now) self.now.is_named self.now.kind.now
            self.now.references.now items.now) }
    {
        let mut rows = Vec::new(alloc);
        for item in items {
            let tuple = self.tuple(alloc, item)?;
            rows.push(Row {
                item: item.copy()?,
                tuple,
            })?;
        }
        Ok(rows)
    }

    fn tuple(&self, alloc: Global, item: &Item) -> Result<List<Text>, BatchFault>
        ensures { Gives result
            (tuple_of (scene_of self.now.lens.now) self.now.is_named self.now.kind.now
            self.now.references.now item.now) }
    {
        let mut tuple = List::new(alloc);
        for reference in self.references {
            tuple.push(self.value(alloc, item, reference)?)?;
        }
        Ok(tuple)
    }

    fn value(&self, alloc: Global, item: &Item, reference: &Reference) -> Result<Text, BatchFault>
        ensures { Gives result
            (value_for (scene_of self.now.lens.now) self.now.is_named self.now.kind.now item.now
            reference.now.kind reference.now.name) }
    {
        match &reference.kind {
            Some(kind) if kind != self.kind => Ok(Text::of(alloc, "")?),
            None if self.is_named && !self.has_metadata(item, &reference.name) => {
                Err(self.no_value(item, &reference.name)?)
            }
            _ => self.metadata_for(alloc, item, &reference.name),
        }
    }

    fn metadata_for(&self, alloc: Global, item: &Item, name: &Name) -> Result<Text, BatchFault>
        ensures { Gives result
            (metadata_for (scene_of self.now.lens.now) self.now.kind.now item.now name.now) }
    {
        Ok(metadata(alloc, self.lens, self.kind, item, name)?)
    }

    /// Whether the item has this metadata: well-known, its own or its type's default.
    fn has_metadata(&self, item: &Item, name: &Name) -> bool
        ensures { result ≡ has_metadata (scene_of self.now.lens.now) self.now.kind.now item.now
            name.now }
    {
        is_well_known(name) || item.meta.get(name).is_some() || self.is_default(name)
    }

    fn is_default(&self, name: &Name) -> bool
        ensures { result
            ≡ is_some
            (value_at name.now (defaults_at (scene_of self.now.lens.now) self.now.kind.now)) }
    {
        match self.lens.scope.defaults.get(self.kind) {
            Some(defaults) => defaults.get(name).is_some(),
            None => false,
        }
    }

    fn no_value(&self, item: &Item, name: &Name) -> Result<BatchFault, NoMemory>
        ensures { IfOk result (λ fault. fault ≡ NoValue self.now.kind.now item.now.ident name.now) }
    {
        Ok(BatchFault::NoValue(self.kind.copy()?, item.ident.copy()?, name.copy()?))
    }
}
