ghost use Rattle.std.specs.Prelude.{◌≡◌};
ghost use Rattle.msb_glob.specs.declared.errors.GlobFault.TheVariants.{Memory};

use msb_paths::{NoRoom, PathFault};
use msb_values::NoMemory;
use std::alloc::{AllocError, AllocFailed};

/// Why a text is no pattern.
#[derive(Clone, Copy, Debug, PartialEq, Eq)]
pub enum GlobFault {
    /// `**` stands beside other characters in a segment.
    StarsInSegment,
    /// The text cannot be made normal; never for want of memory.
    Path(PathFault),
    /// Want of memory.
    Memory,
}

/// Want of memory, of a call that has no other fault.
#[derive(Clone, Copy, Debug)]
pub(crate) struct OutOfMemory;

impl From<NoMemory> for OutOfMemory {
    fn from(_: NoMemory) -> Self {
        OutOfMemory
    }
}

impl From<NoRoom> for OutOfMemory {
    fn from(_: NoRoom) -> Self {
        OutOfMemory
    }
}

impl From<AllocError> for OutOfMemory {
    fn from(_: AllocError) -> Self {
        OutOfMemory
    }
}

impl<T: Drop> From<AllocFailed<T>> for OutOfMemory {
    fn from(_: AllocFailed<T>) -> Self {
        OutOfMemory
    }
}

impl From<OutOfMemory> for NoRoom {
    fn from(_: OutOfMemory) -> Self {
        NoRoom
    }
}

impl From<OutOfMemory> for GlobFault {
    ghost from_gives = { λ _ e. e ≡ Memory };

    fn from(_: OutOfMemory) -> Self {
        GlobFault::Memory
    }
}

impl From<NoMemory> for GlobFault {
    ghost from_gives = { λ _ e. e ≡ Memory };

    fn from(_: NoMemory) -> Self {
        GlobFault::Memory
    }
}
