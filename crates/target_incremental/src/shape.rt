ghost use Rattle.std.specs.Prelude.{◌≡◌, IfOk};
ghost use Rattle.target_incremental.specs.Shapes.{
  item_type,
  same_type,
  whole_list,
  whole_transform,
};

use msb_expression::{Expr, Part, Step};
use msb_values::{Name, NoMemory};
use std::alloc::Global;

/// The item type X of a target that takes its items one by one: its Inputs is just `@(X)` and its
/// Outputs just `@(X->'s')`, as they are read. (How to build incrementally.)
pub fn item_type(alloc: Global, inputs: &Expr, outputs: &Expr) -> Result<Option<Name>, NoMemory>
    ensures { IfOk result (λ kind. kind ≡ item_type inputs.now.parts outputs.now.parts) }
{
    let list = whole_list(alloc, inputs.parts.as_slice())?;
    let transform = whole_transform(alloc, outputs.parts.as_slice())?;
    Ok(same_type(list, transform))
}

// The one type of two.
fn same_type(one: Option<Name>, other: Option<Name>) -> Option<Name>
    ensures { result ≡ same_type one other }
{
    match (one, other) {
        (Some(kind), Some(other)) => { if kind == other { Some(kind) } else { None } }
        _ => None,
    }
}

// The item type of a text that is just `@(X)`.
fn whole_list(alloc: Global, parts: &[Part]) -> Result<Option<Name>, NoMemory>
    ensures { IfOk result (λ kind. kind ≡ whole_list parts.now) }
{
    match parts {
        [Part::Items(kind, steps, None)] if steps.is_empty() => Name::look_up(alloc, kind.as_str()),
        _ => Ok(None),
    }
}

// The item type of a text that is just `@(X->'s')`.
fn whole_transform(alloc: Global, parts: &[Part]) -> Result<Option<Name>, NoMemory>
    ensures { IfOk result (λ kind. kind ≡ whole_transform parts.now) }
{
    match parts {
        [Part::Items(kind, steps, None)] => match steps.as_slice() {
            [Step::Transform(..)] => Name::look_up(alloc, kind.as_str()),
            _ => Ok(None),
        },
        _ => Ok(None),
    }
}
