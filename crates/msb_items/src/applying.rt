//! Changes of a scope that is worked on: items move, and none is copied but those that a change
//! names.
ghost use Rattle.std.specs.Prelude.{◌≡◌, OnOk, IfOk, map};
ghost use Rattle.msb_values.specs.Changes.{
  all_applied,
  applied,
  with_metadata_if,
  with_metadata_on,
  without_named,
};
ghost use Rattle.msb_values.specs.Folded.{folded_bytes};
ghost use Rattle.msb_values.specs.Pairs.{changed_at};

use crate::item_names::keep_unless;
use crate::pairs::put_all;
use crate::sets::set_of;
use msb_values::{
    Change, Folded, Item, List, Lists, Name, NoMemory, Pairs, Scope, SharedItems, Text,
};
use std::alloc::Global;

/// Does what some changes say, one after another. Where there is no memory, nothing is said of the
/// scope.
pub(crate) fn apply_all(
    alloc: Global,
    scope: &mut Scope,
    changes: &[Change],
) -> Result<(), NoMemory>
    ensures { OnOk result (scope.new ≡ all_applied changes.now scope.old) }
{
    for change in changes {
        apply(alloc, scope, change)?;
    }
    Ok(())
}

fn apply(alloc: Global, scope: &mut Scope, change: &Change) -> Result<(), NoMemory>
    ensures { OnOk result (scope.new ≡ applied change.now scope.old) }
{
    match change {
        Change::SetProp(_, _) => scope.apply(alloc, change),
        Change::AddItems(_, _) => scope.apply(alloc, change),
        Change::RemoveItems(kind, texts) => {
            remove_items(alloc, &mut scope.items, kind, texts.as_slice())
        }
        Change::SetMeta(kind, given, pairs) => {
            set_metadata(alloc, &mut scope.items, kind, given.as_slice(), pairs)
        }
    }
}

fn remove_items(
    alloc: Global,
    lists: &mut Lists,
    kind: &Name,
    texts: &[Text],
) -> Result<(), NoMemory>
    ensures { OnOk result (lists.new ≡ changed_at kind.now (without_named texts.now) lists.old) }
{
    let shared = lists.replace(kind, SharedItems::none())?;
    let items = shared.into_list(alloc)?;
    let kept = items_except(alloc, items.into_vec(), texts)?;
    let kept = SharedItems::of(alloc, List::from(kept))?;
    lists.replace(kind, kept)?;
    Ok(())
}

/// The items whose identities equal none of the texts without case.
fn items_except(alloc: Global, items: Vec<Item>, texts: &[Text]) -> Result<Vec<Item>, NoMemory>
    ensures { IfOk result (λ kept. kept.items ≡ without_named texts.now items.items) }
{
    let named = set_of(alloc, fold_all(alloc, texts)?)?;
    let mut kept = Vec::with_capacity(alloc, items.len())?;
    for item in items {
        let ident = Folded::of(alloc, item.ident.as_str())?;
        keep_unless(&mut kept, named.contains(&ident), item)?;
    }
    Ok(kept)
}

fn fold_all(alloc: Global, texts: &[Text]) -> Result<Vec<Folded>, NoMemory>
    ensures { IfOk result (λ folded. folded.items ≡ map folded_bytes texts.now) }
{
    let mut folded = Vec::with_capacity(alloc, texts.len())?;
    for text in texts {
        folded.push(Folded::of(alloc, text.as_str())?)?;
    }
    Ok(folded)
}

fn set_metadata(
    alloc: Global,
    lists: &mut Lists,
    kind: &Name,
    given: &[Item],
    pairs: &Pairs,
) -> Result<(), NoMemory>
    ensures { OnOk result
        (lists.new ≡ changed_at kind.now (with_metadata_on given.now pairs.now) lists.old) }
{
    let shared = lists.replace(kind, SharedItems::none())?;
    let items = shared.into_list(alloc)?;
    let changed = with_metadata_on(alloc, items.into_vec(), given, pairs)?;
    let changed = SharedItems::of(alloc, List::from(changed))?;
    lists.replace(kind, changed)?;
    Ok(())
}

/// The items, of which those that equal one of the given get the metadata.
fn with_metadata_on(
    alloc: Global,
    items: Vec<Item>,
    given: &[Item],
    pairs: &Pairs,
) -> Result<Vec<Item>, NoMemory>
    ensures { IfOk result (λ changed. changed.items
        ≡ with_metadata_on given.now pairs.now items.items) }
{
    let set = set_of(alloc, List::of(alloc, given)?.into_vec())?;
    let mut changed = items;
    for item in changed.iter_mut() {
        let is_given = set.contains(&*item);
        put_if(is_given, item, pairs)?;
    }
    Ok(changed)
}

fn put_if(is: bool, item: &mut Item, pairs: &Pairs) -> Result<(), NoMemory>
    ensures { OnOk result (item.new ≡ with_metadata_if is pairs.now item.old) }
{
    if is {
        put_all(&mut item.meta, pairs)?;
    }
    Ok(())
}
