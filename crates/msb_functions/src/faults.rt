ghost use Rattle.std.specs.Prelude.{◌≡◌};
ghost use Rattle.msb_functions.specs.declared.faults.FuncFault.TheVariants.{Memory};

use std::alloc::{AllocError, AllocFailed};

/// Want of memory.
#[derive(Clone, Copy, Debug, PartialEq, Eq)]
pub struct NoRoom;

impl From<AllocError> for NoRoom {
    fn from(_: AllocError) -> Self {
        NoRoom
    }
}

impl<T: Drop> From<AllocFailed<T>> for NoRoom {
    fn from(_: AllocFailed<T>) -> Self {
        NoRoom
    }
}

/// Why a property function has no value.
#[derive(Clone, Copy, Debug, PartialEq, Eq)]
pub enum FuncFault {
    /// No function has this name in this form: with or without parentheses, of a text or of none.
    UnknownFunction,
    /// The arguments are too many or too few, or one is no number where a number is wanted, or is
    /// outside its range.
    BadArgument,
    /// The result or an argument is outside the whole numbers of 64 bits with sign.
    Overflow,
    /// Want of memory.
    Memory,
}

impl From<NoRoom> for FuncFault {
    ghost from_gives = { λ _ e. e ≡ Memory };

    fn from(_: NoRoom) -> Self {
        FuncFault::Memory
    }
}

impl From<AllocError> for FuncFault {
    ghost from_gives = { λ _ e. e ≡ Memory };

    fn from(_: AllocError) -> Self {
        FuncFault::Memory
    }
}
