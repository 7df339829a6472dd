ghost use Rattle.std.specs.Prelude.{◌≡◌};
ghost use Rattle.msb_values.specs.declared.errors.NameFault.TheVariants.{Memory};

use std::alloc::{AllocError, AllocFailed};

/// Want of memory. It may come at any call that allocates, and says nothing else.
#[derive(Clone, Copy, Debug, PartialEq, Eq)]
pub struct NoMemory;

impl From<AllocError> for NoMemory {
    fn from(_: AllocError) -> Self {
        NoMemory
    }
}

impl<T: Drop> From<AllocFailed<T>> for NoMemory {
    fn from(_: AllocFailed<T>) -> Self {
        NoMemory
    }
}

/// Why a text is no name.
#[derive(Clone, Copy, Debug, PartialEq, Eq)]
pub enum NameFault {
    /// The place of the first byte that a name can't have there, or 0 for an empty text.
    BadName(u64),
    Memory,
}

impl From<NoMemory> for NameFault {
    ghost from_gives = { λ _ e. e ≡ Memory };

    fn from(_: NoMemory) -> Self {
        NameFault::Memory
    }
}
