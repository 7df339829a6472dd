ghost use Rattle.std.specs.Prelude.{◌≡◌};
ghost use Rattle.msb_batching.specs.declared.faults.BatchFault.TheVariants.{Memory};

use msb_expand::ExpandFault;
use msb_values::{Cause, Name, NoMemory, Text};
use std::alloc::AllocFailed;

/// Why an element has no buckets. (MSBuild batching.)
#[derive(Drop)]
pub enum BatchFault {
    /// A reference to this metadata is qualified by no item type, and the element names no list.
    NoList(Name),
    /// An item of this type and identity has no metadata of this name.
    NoValue(Name, Text, Name),
    /// The metadata of an item has no value.
    Expand(ExpandFault),
    Memory,
}

impl From<NoMemory> for BatchFault {
    ghost from_gives = { λ _ e. e ≡ Memory };

    fn from(_: NoMemory) -> Self {
        BatchFault::Memory
    }
}

impl<T: Drop> From<AllocFailed<T>> for BatchFault {
    ghost from_gives = { λ _ e. e ≡ Memory };

    fn from(_: AllocFailed<T>) -> Self {
        BatchFault::Memory
    }
}

impl From<ExpandFault> for BatchFault {
    ghost use Rattle.msb_batching.specs.Causes.{batch_fault};

    ghost from_gives = { λ e b. b ≡ batch_fault e };

    fn from(fault: ExpandFault) -> Self {
        match fault {
            ExpandFault::Memory => BatchFault::Memory,
            fault => BatchFault::Expand(fault),
        }
    }
}

impl From<BatchFault> for Cause {
    ghost use Rattle.msb_batching.specs.Causes.{cause_of};

    ghost from_gives = { λ e c. c ≡ cause_of e };

    fn from(fault: BatchFault) -> Self {
        match fault {
            BatchFault::NoList(name) => Cause::NoList(Text::from(name)),
            BatchFault::NoValue(kind, ident, name) => {
                Cause::NoValue(Text::from(kind), ident, Text::from(name))
            }
            BatchFault::Expand(fault) => Cause::from(fault),
            BatchFault::Memory => Cause::Memory,
        }
    }
}
