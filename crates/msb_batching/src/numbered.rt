ghost use Rattle.std.specs.Prelude.{◌≡◌, [], map, IfOk, OnOk};
ghost use Rattle.msb_batching.specs.Numbers.{numbered_of, put_at, spread_over};

use msb_values::{Item, List, Name, NoMemory, Text};
use std::alloc::Global;

/// An item with the number of its tuple.
#[derive(Drop)]
pub(crate) struct Numbered {
    pub(crate) item: Item,
    pub(crate) number: usize,
}

/// A batched list with the numbers of its items' tuples.
#[derive(Drop)]
pub(crate) struct NumberedList {
    pub(crate) kind: Name,
    pub(crate) items: Vec<Numbered>,
}

/// The items of each tuple.
pub(crate) fn spread(
    alloc: Global,
    items: Vec<Numbered>,
    tuples: &[List<Text>],
) -> Result<Vec<List<Item>>, NoMemory>
    ensures { IfOk result (λ lists. lists.items
        ≡ spread_over (map (λ tuple. []) tuples.now) (map numbered_of items.items)) }
{
    let mut lists = empty_lists(alloc, tuples)?;
    for numbered in items {
        put(&mut lists, numbered.number, numbered.item)?;
    }
    Ok(lists)
}

fn empty_lists(alloc: Global, tuples: &[List<Text>]) -> Result<Vec<List<Item>>, NoMemory>
    ensures { IfOk result (λ lists. lists.items ≡ map (λ tuple. []) tuples.now) }
{
    let mut lists = Vec::with_capacity(alloc, tuples.len())?;
    for _tuple in tuples {
        lists.push(List::new(alloc))?;
    }
    Ok(lists)
}

/// Puts the item behind the list of this number.
fn put(lists: &mut Vec<List<Item>>, number: usize, item: Item) -> Result<(), NoMemory>
    ensures { OnOk result (lists.new.items ≡ put_at number item lists.old.items) }
{
    match lists.get_mut(number) {
        Some(list) => Ok(list.push(item)?),
        None => Ok(()),
    }
}
