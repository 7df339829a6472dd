ghost use Rattle.std.specs.Prelude.{◌≡◌};
ghost use Rattle.msb_expression.specs.declared.faults.ExprFault.TheVariants.{Memory};

use std::alloc::{AllocError, AllocFailed};

/// Want of memory.
#[derive(Clone, Copy, Debug, PartialEq, Eq)]
pub struct NoRoom;

impl From<AllocError> for NoRoom {
    fn from(_: AllocError) -> Self {
        NoRoom
    }
}

impl<T: Drop> From<AllocFailed<T>> for NoRoom {
    fn from(_: AllocFailed<T>) -> Self {
        NoRoom
    }
}

/// Why a text is no expression, with the place of the first byte at which no text that begins so is
/// one.
#[derive(Clone, Copy, Debug, PartialEq, Eq)]
pub enum ExprFault {
    /// The text ends inside a reference; the place is its length.
    Unclosed(u64),
    /// The byte stands inside `$(` or `%(`, or at the type name of `@(`.
    BadName(u64),
    /// The byte stands elsewhere in `@(`, or is the `.` of a qualified name in a transform.
    BadTransform(u64),
    /// The byte is the `(` of an `@(` in a transform.
    NestedTransform(u64),
    /// There is no room for the expression.
    Memory,
}

impl From<NoRoom> for ExprFault {
    ghost from_gives = { λ _ e. e ≡ Memory };

    fn from(_: NoRoom) -> Self {
        ExprFault::Memory
    }
}
