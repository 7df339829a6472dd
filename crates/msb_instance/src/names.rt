ghost use Rattle.std.specs.Prelude.{◌≡◌, IfOk};
ghost use Rattle.msb_values.specs.Names.{bad_place, is_target_byte};
ghost use Rattle.build_world.specs.Elements.{seen_placed};
ghost use Rattle.msb_instance.specs.Targets.{name_if, target_name_of};

use build_world::Placed;
use msb_values::{Name, NameFault, NoMemory};
use std::alloc::Global;

/// The name of a Target element; any other element has none. (Target element.)
pub(crate) fn target_name(alloc: Global, placed: &Placed) -> Result<Option<Name>, NoMemory>
    ensures { IfOk result (λ name. name ≡ target_name_of (seen_placed placed.now)) }
{
    if placed.element.name() != "Target" {
        return Ok(None);
    }
    match placed.element.attribute("Name") {
        Some(text) => name_if(alloc, text),
        None => Ok(None),
    }
}

/// The target's name that a text is.
fn name_if(alloc: Global, text: &str) -> Result<Option<Name>, NoMemory>
    ensures { IfOk result (λ name. name ≡ name_if text.now (bad_place is_target_byte text.now)) }
{
    match Name::read_target(alloc, text) {
        Ok(name) => Ok(Some(name)),
        Err(NameFault::BadName(_)) => Ok(None),
        Err(NameFault::Memory) => Err(NoMemory),
    }
}
