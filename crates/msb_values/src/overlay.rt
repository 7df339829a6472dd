ghost use Rattle.std.specs.Prelude.{◌≡◌, IfOk, OnOk};
ghost use Rattle.msb_values.specs.Overlays.{put_missing, overlaid};
ghost use Rattle.msb_values.specs.Pairs.{value_at};

use crate::{Copied, Name, NoMemory, Pairs, Text};

/// An item's own metadata, and the defaults that it does not have itself. (MSBuild item
/// definitions.)
pub fn with_defaults(defaults: &Pairs, own: &Pairs) -> Result<Pairs, NoMemory>
    ensures { IfOk result (λ meta. meta ≡ overlaid defaults.now own.now) }
{
    let mut meta = own.copy()?;
    put_all_missing(&mut meta, defaults)?;
    Ok(meta)
}

/// Puts the defaults into an item's own metadata that it does not have itself. (MSBuild item
/// definitions.)
///
/// Where there is no memory, some of them may be in.
pub fn put_all_missing(meta: &mut Pairs, defaults: &Pairs) -> Result<(), NoMemory>
    ensures { OnOk result (meta.new ≡ overlaid defaults.now meta.old) }
{
    for (name, default) in defaults.iter() {
        put_missing(meta, name, default)?;
    }
    Ok(())
}

fn put_missing(meta: &mut Pairs, name: &Name, default: &Text) -> Result<(), NoMemory>
    ensures { OnOk result
        (meta.new ≡ put_missing (value_at name.now meta.old) meta.old name.now default.now) }
{
    match meta.get(name) {
        Some(_) => Ok(()),
        None => meta.insert(name.copy()?, default.copy()?),
    }
}
