ghost use Rattle.std.specs.Prelude.{◌≡◌, ◌++◌, ◌||◌, ◌&&◌, not, [], List, map, IfOk, OnOk};
ghost use Rattle.std.specs.HashSet.{contains};
ghost use Rattle.msb_values.specs.declared.item.Item.{Item as AnItem};
ghost use Rattle.msb_items.specs.Repeats.{without_repeats};
ghost use Rattle.msb_items.specs.RepeatKeys.{HasKeys, item_if, key_of, same_key};
ghost use Rattle.msb_items.specs.declared.repeats.ItemKey.{ItemKey as Key};

use crate::sets::set_of;
use msb_values::{Copied, Folded, Item, List, NoMemory, Pairs, with_defaults};
use std::alloc::Global;
use std::collections::HashSet;
use std::marker::Model;
use std::mem;

/// What two items have in common of which the second is left out: the identity without case, and
/// the metadata with the defaults of the type.
#[derive(PartialEq, Eq, Hash)]
struct ItemKey {
    ident: Folded,
    meta: Pairs,
}

// A drop that is written out is proved here alone.
impl Drop for ItemKey {
    fn drop(self) {
        let ItemKey { ident: _, meta: _ } = self;
    }
}

impl ItemKey {
    fn of(alloc: Global, defaults: &Pairs, item: &Item) -> Result<ItemKey, NoMemory>
        ensures { IfOk result (λ key. key ≡ key_of defaults.now item.now) }
    {
        Ok(ItemKey {
            ident: Folded::of(alloc, item.ident.as_str())?,
            meta: with_defaults(defaults, &item.meta)?,
        })
    }
}

/// Items among which an equal one is found in a time that does not grow with their number. (Target
/// element, KeepDuplicateOutputs.)
pub struct KeyedItems {
    items: List<Item>,
    keys: HashSet<ItemKey>,
}

// A drop that is written out is proved here alone.
impl Drop for KeyedItems {
    fn drop(self) {
        let KeyedItems { items: _, keys: _ } = self;
    }
}

impl Model for KeyedItems {
    ghost use Rattle.std.specs.Prelude.{List, []};
    ghost use Rattle.msb_values.specs.declared.item.Item.{Item};

    ghost Value = { List Item };

    ghost use Rattle.msb_items.specs.RepeatKeys.{HasKeys};

    ghost view = { λ s. s.items };

    ghost invariant = { λ s. HasKeys [] s.items s.keys };
}

impl KeyedItems {
    /// No items.
    pub fn new(alloc: Global) -> KeyedItems
        ensures { result ≡ [] }
    {
        KeyedItems {
            items: List::new(alloc),
            keys: HashSet::new(alloc),
        }
    }

    /// The items as a list.
    pub fn into_list(self) -> List<Item>
        ensures { result ≡ self }
    {
        let KeyedItems { items, keys: _ } = self;
        items
    }

    fn parts(self) -> (List<Item>, HashSet<ItemKey>)
        ensures items { result.0 ≡ self }
        ensures keys { HasKeys [] result.0 result.1 }
    {
        let KeyedItems { items, keys } = self;
        (items, keys)
    }

    /// Puts items behind these, also repeats. Where there is no memory, nothing is said of them.
    pub fn append(&mut self, alloc: Global, more: List<Item>) -> Result<(), NoMemory>
        ensures { OnOk result (self.new ≡ self.old ++ more) }
    {
        let (items, keys) = mem::replace(self, KeyedItems::new(alloc)).parts();
        *self = append_all(alloc, items, keys, more.into_vec())?;
        Ok(())
    }

    /// The items of which no equal one is among these, nor one ahead of them: see
    /// [`without_repeats`], without defaults. The time grows with their own number alone.
    pub fn without_repeats(&self, alloc: Global, items: List<Item>) -> Result<List<Item>, NoMemory>
        ensures { IfOk result (λ kept. kept ≡ without_repeats [] self.now items) }
    {
        let kept = new_items(alloc, &Pairs::new(alloc), &self.keys, items.into_vec())?;
        Ok(List::from(kept))
    }
}

impl Copied for KeyedItems {
    fn copy(&self) -> Result<KeyedItems, NoMemory> {
        let items = self.items.copy()?.into_vec();
        let alloc = *items.allocator();
        append_all(alloc, List::new(alloc), HashSet::new(alloc), items)
    }
}

// Items and their keys, and behind them others with theirs.
fn append_all(
    alloc: Global,
    items: List<Item>,
    keys: HashSet<ItemKey>,
    more: Vec<Item>,
) -> Result<KeyedItems, NoMemory>
    requires { HasKeys [] items keys }
    ensures { IfOk result (λ all. all ≡ items ++ more.items) }
{
    let none = Pairs::new(alloc);
    let mut items = items;
    let mut keys = keys;
    for item in more {
        keys.insert(ItemKey::of(alloc, &none, &item)?)?;
        items.push(item)?;
    }
    Ok(KeyedItems { items, keys })
}

/// The items of which no equal one is there, nor one ahead of them: of the same identity without
/// case, and with the same metadata, by bytes, where an item that does not have one itself has the
/// default. (Item element, KeepDuplicates; Target element, KeepDuplicateOutputs.)
pub(crate) fn without_repeats(
    alloc: Global,
    defaults: &Pairs,
    there: &[Item],
    items: Vec<Item>,
) -> Result<Vec<Item>, NoMemory>
    ensures { IfOk result (λ kept. kept.items
        ≡ without_repeats defaults.now there.now items.items) }
{
    let keys = set_of(alloc, keys_of(alloc, defaults, there)?)?;
    new_items(alloc, defaults, &keys, items)
}

// The items whose keys are not known, nor those of items ahead of them.
fn new_items(
    alloc: Global,
    defaults: &Pairs,
    known: &HashSet<ItemKey>,
    items: Vec<Item>,
) -> Result<Vec<Item>, NoMemory>
    ensures { (there : List AnItem) → HasKeys defaults.now there known.now
        → IfOk result (λ kept. kept.items ≡ without_repeats defaults.now there items.items) }
{
    let mut own = HashSet::new(alloc);
    let mut kept = Vec::new(alloc);
    for item in items {
        let key = ItemKey::of(alloc, defaults, &item)?;
        let is_new = add_unknown(known, &mut own, key)?;
        keep_if(&mut kept, is_new, item)?;
    }
    Ok(kept)
}

// Adds a key, unless it is known or was added before.
fn add_unknown(
    known: &HashSet<ItemKey>,
    own: &mut HashSet<ItemKey>,
    key: ItemKey,
) -> Result<bool, NoMemory>
    ensures is_new { IfOk result (λ is_new. is_new
        ≡ not (contains same_key known.now key || contains same_key own.old key)) }
    ensures added { IfOk result (λ is_new. (one : Key)
        → contains same_key own.new one
        ≡ (contains same_key own.old one || (is_new && same_key key one))) }
{
    if known.contains(&key) {
        return Ok(false);
    }
    Ok(own.insert(key)?)
}

fn keep_if(kept: &mut Vec<Item>, is_new: bool, item: Item) -> Result<(), NoMemory>
    ensures { OnOk result (kept.new.items ≡ kept.old.items ++ item_if is_new item) }
{
    if is_new {
        kept.push(item)?;
    }
    Ok(())
}

fn keys_of(alloc: Global, defaults: &Pairs, items: &[Item]) -> Result<Vec<ItemKey>, NoMemory>
    ensures { IfOk result (λ keys. keys.items ≡ map (key_of defaults.now) items.now) }
{
    let mut keys = Vec::with_capacity(alloc, items.len())?;
    for item in items {
        keys.push(ItemKey::of(alloc, defaults, item)?)?;
    }
    Ok(keys)
}
