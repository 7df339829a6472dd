//! Changes of scopes. (PropertyGroup element; ItemGroup element; Output element.)

ghost use Rattle.std.specs.Prelude.{◌≡◌, OnOk, unwrap_or};
ghost use Rattle.msb_values.specs.Changes.{all_applied};
ghost use Rattle.msb_values.specs.declared.scope.Scope.{Scope as Seen};

use msb_values::{Change, NoMemory, Scope};
use std::alloc::Global;

/// Makes changes in a scope of one's own, where there is one; where there is none, the shared one
/// stands for it.
pub(crate) fn apply_to_own(
    alloc: Global,
    own: &mut Option<Scope>,
    changes: &[Change],
) -> Result<(), NoMemory>
    ensures { OnOk result ((shared : Seen)
        → unwrap_or own.new (all_applied changes.now shared)
        ≡ all_applied changes.now (unwrap_or own.old shared)) }
{
    match own {
        Some(own) => own.apply_all(alloc, changes),
        None => Ok(()),
    }
}
