ghost use Rattle.std.specs.Prelude.{◌≡◌, OnOk, map};
ghost use Rattle.msb_values.specs.Changes.{with_metadata};
ghost use Rattle.msb_values.specs.Pairs.{all_put};

use msb_values::{Copied, Item, NoMemory, Pairs};

/// Gives metadata to each of some items, in place of those of the same names.
pub(crate) fn put_pairs(items: &mut [Item], pairs: &Pairs) -> Result<(), NoMemory>
    ensures { OnOk result (items.new ≡ map (with_metadata pairs.now) items.old) }
{
    for item in items.iter_mut() {
        put_all(&mut item.meta, pairs)?;
    }
    Ok(())
}

pub(crate) fn put_all(meta: &mut Pairs, pairs: &Pairs) -> Result<(), NoMemory>
    ensures { OnOk result (meta.new ≡ all_put meta.old pairs.now) }
{
    for (name, value) in pairs.iter() {
        meta.insert(name.copy()?, value.copy()?)?;
    }
    Ok(())
}
