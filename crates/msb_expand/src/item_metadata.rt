ghost use Rattle.std.specs.Prelude.{◌≡◌, IfOk};
ghost use Rattle.msb_expand.specs.Answers.{Gives};
ghost use Rattle.msb_expand.specs.Scenes.{scene_of, defaults_at, with_defaults};
ghost use Rattle.msb_expand.specs.Metadata.{metadata_at};

use crate::seen::Seen;
use crate::{ExpandFault, Lens};
use msb_values::{Item, Name, NoMemory, Text};
use std::alloc::Global;

/// A metadata of an item of this type: well-known, or its own, or the type's default, or empty.
/// (MSBuild well-known item metadata; MSBuild item definitions.)
pub fn metadata(
    alloc: Global,
    lens: &Lens<'_>,
    of: &Name,
    item: &Item,
    name: &Name,
) -> Result<Text, ExpandFault>
    ensures { Gives result
        (metadata_at lens.now.project.now
        (with_defaults (defaults_at (scene_of lens.now) of.now) item.now) name.now) }
{
    let item = Seen::of(item, lens.scope.defaults.get(of));
    let value = item.metadata(alloc, lens.project, name)?;
    Ok(value.into_text(alloc)?)
}

/// An item of this type with the type's defaults put in, as a reference copies it. (MSBuild item
/// definitions.)
pub fn with_defaults(
    alloc: Global,
    lens: &Lens<'_>,
    of: &Name,
    item: &Item,
) -> Result<Item, NoMemory>
    ensures { IfOk result
        (λ copy. copy ≡ with_defaults (defaults_at (scene_of lens.now) of.now) item.now) }
{
    Seen::of(item, lens.scope.defaults.get(of)).item(alloc)
}
