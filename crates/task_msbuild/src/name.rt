ghost use Rattle.std.specs.Prelude.{◌≡◌, None, IfOk};
ghost use Rattle.std.specs.Str.{str_to_ascii_lowercase};
ghost use Rattle.msb_values.specs.Names.{bad_place, is_name_byte};

use msb_values::{Name, NameFault, NoMemory};
use std::alloc::Global;

/// The name of metadata or of an output, which is written in the code.
pub(crate) fn literal_name(alloc: Global, text: &'static str) -> Result<Name, NoMemory>
    requires { bad_place is_name_byte text.now ≡ None }
    ensures { IfOk result (λ name. name ≡ str_to_ascii_lowercase text.now) }
{
    match Name::read(alloc, text) {
        Ok(name) => Ok(name),
        Err(NameFault::Memory) => Err(NoMemory),
        Err(NameFault::BadName(_)) => unreachable!(),
    }
}
