ghost use Rattle.std.specs.Prelude.{◌≡◌};
ghost use Rattle.msb_paths.specs.declared.errors.PathFault.TheVariants.{Memory};
ghost use Rattle.msb_paths.specs.Refused.{normal_fault};

use std::alloc::{AllocError, AllocFailed};

/// Want of memory.
#[derive(Clone, Copy, Debug, PartialEq, Eq)]
pub struct NoRoom;

impl From<AllocError> for NoRoom {
    fn from(_: AllocError) -> Self {
        NoRoom
    }
}

/// Why a text cannot be made a normal path.
#[derive(Clone, Copy, Debug, PartialEq, Eq)]
pub enum PathFault {
    /// A `..` has nothing to take away.
    AboveRoot,
    /// No segment is left.
    Empty,
    /// Want of memory.
    Memory,
}

impl From<NoRoom> for PathFault {
    ghost from_gives = { λ _ e. e ≡ Memory };

    fn from(_: NoRoom) -> Self {
        PathFault::Memory
    }
}

impl<T: Drop> From<AllocFailed<T>> for PathFault {
    ghost from_gives = { λ _ e. e ≡ Memory };

    fn from(_: AllocFailed<T>) -> Self {
        PathFault::Memory
    }
}

/// Why a text is not read as a normal path.
#[derive(Clone, Copy, Debug, PartialEq, Eq)]
pub enum NormalFault {
    /// A `..` has nothing to take away.
    AboveRoot,
    /// No segment is left.
    Empty,
    /// A segment that is left has a character below U+0020.
    ControlCharacter,
    /// Want of memory.
    Memory,
}

impl From<PathFault> for NormalFault {
    ghost from_gives = { λ fault e. e ≡ normal_fault fault };

    fn from(fault: PathFault) -> Self {
        match fault {
            PathFault::AboveRoot => NormalFault::AboveRoot,
            PathFault::Empty => NormalFault::Empty,
            PathFault::Memory => NormalFault::Memory,
        }
    }
}
