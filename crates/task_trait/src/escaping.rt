ghost use Rattle.std.specs.Prelude.{◌≡◌, [], map, IfOk};
ghost use Rattle.msb_values.specs.Escapes.{escaped, unescaped};
ghost use Rattle.msb_values.specs.Pairs.{all_put};
ghost use Rattle.task_trait.specs.Escaping.{handed_item, taken_item};

use msb_values::{Copied, Item, List, NoMemory, Pairs, escape, unescape};
use std::alloc::Global;

/// Items as a task is handed them: every text without its escapes. (MSBuild special characters.)
pub fn handed_items(alloc: Global, items: &[Item]) -> Result<List<Item>, NoMemory>
    ensures { IfOk result (λ handed. handed ≡ map handed_item items.now) }
{
    let mut handed = List::new(alloc);
    for item in items {
        handed.push(handed_item(alloc, item)?)?;
    }
    Ok(handed)
}

/// Items as they are taken from a task: every text escaped.
pub fn taken_items(alloc: Global, items: &[Item]) -> Result<List<Item>, NoMemory>
    ensures { IfOk result (λ taken. taken ≡ map taken_item items.now) }
{
    let mut taken = List::new(alloc);
    for item in items {
        taken.push(taken_item(alloc, item)?)?;
    }
    Ok(taken)
}

fn handed_item(alloc: Global, item: &Item) -> Result<Item, NoMemory>
    ensures { IfOk result (λ handed. handed ≡ handed_item item.now) }
{
    Ok(Item {
        ident: unescape(alloc, item.ident.as_str())?,
        recursive: item.recursive.copy()?,
        meta: unescaped_values(alloc, &item.meta)?,
    })
}

fn taken_item(alloc: Global, item: &Item) -> Result<Item, NoMemory>
    ensures { IfOk result (λ taken. taken ≡ taken_item item.now) }
{
    Ok(Item {
        ident: escape(alloc, item.ident.as_str())?,
        recursive: item.recursive.copy()?,
        meta: escaped_values(alloc, &item.meta)?,
    })
}

fn unescaped_values(alloc: Global, pairs: &Pairs) -> Result<Pairs, NoMemory>
    ensures { IfOk result
        (λ values. values ≡ all_put [] (map (λ pair. (pair.0, unescaped pair.1)) pairs.now)) }
{
    let mut values = Vec::new(alloc);
    for (name, value) in pairs.iter() {
        values.push((name.copy()?, unescape(alloc, value.as_str())?))?;
    }
    Pairs::of(alloc, values)
}

fn escaped_values(alloc: Global, pairs: &Pairs) -> Result<Pairs, NoMemory>
    ensures { IfOk result
        (λ values. values ≡ all_put [] (map (λ pair. (pair.0, escaped pair.1)) pairs.now)) }
{
    let mut values = Vec::new(alloc);
    for (name, value) in pairs.iter() {
        values.push((name.copy()?, escape(alloc, value.as_str())?))?;
    }
    Pairs::of(alloc, values)
}
