ghost use Rattle.std.specs.Prelude.{◌≡◌, [], ◌∷◌, ◌++◌, IfOk, OnOk, map, reverse};
ghost use Rattle.msb_expand.specs.Functions.{distinct_from, without_metadata, kept_if};
ghost use Rattle.msb_expand.specs.Seen.{seen_item};

use crate::seen::Seen;
use msb_values::{Folded, NoMemory};
use std::alloc::Global;
use std::collections::BTreeSet;

/// The first item of each identity, without case.
pub(crate) fn distinct<'a>(alloc: Global, items: Vec<Seen<'a>>) -> Result<Vec<Seen<'a>>, NoMemory>
    ensures { IfOk result (λ kept. map seen_item kept.items
        ≡ distinct_from [] (map seen_item items.entry.items)) }
{
    let mut idents = BTreeSet::new(alloc);
    let mut kept = Vec::new(alloc);
    for item in items {
        let ident = Folded::of(alloc, item.ident.as_str())?;
        let is_first = idents.insert(ident)?;
        keep_if(&mut kept, is_first, item)?;
    }
    Ok(kept)
}

pub(crate) fn reverse<'a>(items: Vec<Seen<'a>>) -> Vec<Seen<'a>>
    ensures { map seen_item result.items ≡ reverse (map seen_item items.entry.items) }
{
    let mut items = items;
    items.reverse();
    items
}

/// The items without metadata, of their types neither.
pub(crate) fn without_metadata<'a>(
    alloc: Global,
    items: Vec<Seen<'a>>,
) -> Result<Vec<Seen<'a>>, NoMemory>
    ensures { IfOk result (λ cleared. map seen_item cleared.items
        ≡ map without_metadata (map seen_item items.entry.items)) }
{
    let mut cleared = Vec::new(alloc);
    for item in items {
        cleared.push(item.without_metadata())?;
    }
    Ok(cleared)
}

/// Puts an item behind the others.
pub(crate) fn keep<'a>(kept: &mut Vec<Seen<'a>>, item: Seen<'a>) -> Result<(), NoMemory>
    ensures { OnOk result (map seen_item kept.new.items
        ≡ map seen_item kept.old.items ++ seen_item item.entry ∷ []) }
{
    Ok(kept.push(item)?)
}

/// Puts an item behind the others, or drops it.
pub(crate) fn keep_if<'a>(
    kept: &mut Vec<Seen<'a>>,
    is: bool,
    item: Seen<'a>,
) -> Result<(), NoMemory>
    ensures { OnOk result (map seen_item kept.new.items
        ≡ map seen_item kept.old.items ++ kept_if is (seen_item item.entry) []) }
{
    if is { keep(kept, item) } else { Ok(()) }
}
