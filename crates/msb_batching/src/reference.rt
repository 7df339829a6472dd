ghost use Rattle.std.specs.Prelude.{
  ◌≡◌,
  IfOk,
  None,
  Some,
  option_map,
  option_and_then,
  option_to_list,
};
ghost use Rattle.msb_expand.specs.Tokens.{reference_key};
ghost use Rattle.msb_batching.specs.References.{keyed};

use msb_expression::Word;
use msb_values::{Name, NoMemory};
use std::alloc::Global;

/// A reference to metadata: `%(Name)` or `%(Type.Name)`. (MSBuild batching.)
#[derive(PartialEq, Eq, Hash)]
pub(crate) struct Reference {
    pub(crate) kind: Option<Name>,
    pub(crate) name: Name,
}

// A drop that is written out is proved here alone.
impl Drop for Reference {
    fn drop(self) {
        let Reference { kind: _, name: _ } = self;
    }
}

/// The reference, where its texts are names.
pub(crate) fn read_reference(
    alloc: Global,
    qualifier: &Option<Word>,
    name: &Word,
) -> Result<Option<Reference>, NoMemory>
    ensures { IfOk result (λ reference. option_to_list reference
        ≡ keyed (reference_key qualifier.now name.now)) }
{
    match qualifier {
        None => Ok(unqualified_reference(Name::look_up(alloc, name.as_str())?)),
        Some(qualifier) => Ok(qualified_reference(
            Name::look_up(alloc, qualifier.as_str())?,
            Name::look_up(alloc, name.as_str())?,
        )),
    }
}

fn unqualified_reference(name: Option<Name>) -> Option<Reference>
    ensures { option_to_list result ≡ keyed (option_map (λ key. (None, key)) name) }
{
    let name = name?;
    Some(Reference { kind: None, name })
}

fn qualified_reference(kind: Option<Name>, name: Option<Name>) -> Option<Reference>
    ensures { option_to_list result
        ≡ keyed (option_and_then (λ kind. option_map (λ key. (Some kind, key)) name) kind) }
{
    let kind = kind?;
    let name = name?;
    Some(Reference {
        kind: Some(kind),
        name,
    })
}
