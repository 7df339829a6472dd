//! The items of a type after a change. Texts and items are looked up in a set, so the time grows
//! with their number.
ghost use Rattle.std.specs.Prelude.{◌≡◌, [], ◌∷◌, ◌++◌, IfOk, OnOk, map, if◌then◌else◌};
ghost use Rattle.std.specs.HashSet.{contains};
ghost use Rattle.std.specs.List.{list_any};
ghost use Rattle.msb_values.specs.Changes.{
  is_named_in,
  without_named,
  with_metadata_if,
  with_metadata_on,
};
ghost use Rattle.msb_values.specs.Folded.{folded_bytes, FoldsAsCompared};
ghost use Rattle.msb_values.specs.Pairs.{all_put};

use crate::{Copied, Folded, Item, List, NoMemory, Pairs, Text};
use std::alloc::Global;
use std::collections::HashSet;
use std::hash::Hash;

/// The items whose identities equal none of the texts without case.
pub(crate) fn items_except(
    alloc: Global,
    items: &[Item],
    texts: &[Text],
) -> Result<List<Item>, NoMemory>
    ensures { IfOk result (λ kept. kept ≡ without_named texts.now items.now) }
{
    let named = set_of(alloc, fold_all(alloc, texts)?)?;
    let mut kept = List::new(alloc);
    for item in items {
        let ident = Folded::of(alloc, item.ident.as_str())?;
        keep_unless(&mut kept, named.contains(&ident), item)?;
    }
    Ok(kept)
}

fn keep_unless(kept: &mut List<Item>, is: bool, item: &Item) -> Result<(), NoMemory>
    ensures { OnOk result (kept.new ≡ kept.old ++ (if is then [] else item.now ∷ [])) }
{
    if is { Ok(()) } else { kept.push(item.copy()?) }
}

/// The items, of which those that equal one of the given get the metadata.
pub(crate) fn with_metadata_on(
    alloc: Global,
    items: &[Item],
    given: &[Item],
    pairs: &Pairs,
) -> Result<List<Item>, NoMemory>
    ensures { IfOk result (λ changed. changed ≡ with_metadata_on given.now pairs.now items.now) }
{
    let set = set_of(alloc, List::of(alloc, given)?.into_vec())?;
    let mut changed = List::new(alloc);
    for item in items {
        changed.push(with_metadata_if(set.contains(item), item, pairs)?)?;
    }
    Ok(changed)
}

fn with_metadata_if(is: bool, item: &Item, pairs: &Pairs) -> Result<Item, NoMemory>
    ensures { IfOk result (λ changed. changed ≡ with_metadata_if is pairs.now item.now) }
{
    let mut changed = item.copy()?;
    if is {
        put_all(&mut changed.meta, pairs)?;
    }
    Ok(changed)
}

fn put_all(meta: &mut Pairs, pairs: &Pairs) -> Result<(), NoMemory>
    ensures { OnOk result (meta.new ≡ all_put meta.old pairs.now) }
{
    for (name, value) in pairs.iter() {
        meta.insert(name.copy()?, value.copy()?)?;
    }
    Ok(())
}

fn fold_all(alloc: Global, texts: &[Text]) -> Result<Vec<Folded>, NoMemory>
    ensures { IfOk result (λ folded. folded.items ≡ map folded_bytes texts.now) }
{
    let mut folded = Vec::new(alloc);
    for text in texts {
        folded.push(Folded::of(alloc, text.as_str())?)?;
    }
    Ok(folded)
}

/// The set of these keys.
fn set_of<K: Eq + Hash + Drop>(alloc: Global, keys: Vec<K>) -> Result<HashSet<K>, NoMemory>
    ensures { IfOk result (λ set. (key : K) → contains K.eq set key
        ≡ list_any (λ one. K.eq one key) keys.items) }
{
    let mut set = HashSet::new(alloc);
    for key in keys {
        set.insert(key)?;
    }
    Ok(set)
}
