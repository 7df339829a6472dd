ghost use Rattle.std.specs.Prelude.{◌≡◌};
ghost use Rattle.msb_elements.specs.declared.errors.PartFault.TheVariants.{Memory};
ghost use Rattle.msb_elements.specs.declared.errors.ReadFault.TheVariants as form;

use crate::Place;
use msb_values::{NoMemory, Text};
use std::alloc::{AllocError, AllocFailed};

/// Why a value is not taken as an element.
#[derive(Clone, Copy)]
pub enum PartFault {
    NotElement,
    Memory,
}

impl From<NoMemory> for PartFault {
    ghost from_gives = { λ _ e. e ≡ Memory };

    fn from(_: NoMemory) -> Self {
        PartFault::Memory
    }
}

impl From<AllocError> for PartFault {
    ghost from_gives = { λ _ e. e ≡ Memory };

    fn from(_: AllocError) -> Self {
        PartFault::Memory
    }
}

impl<T: Drop> From<AllocFailed<T>> for PartFault {
    ghost from_gives = { λ _ e. e ≡ Memory };

    fn from(_: AllocFailed<T>) -> Self {
        PartFault::Memory
    }
}

/// Why a file is no project file, with the place of the element. (MSBuild project file schema
/// reference.)
#[derive(Drop)]
pub enum ReadFault {
    /// The bytes are no JSON text.
    NotJson,
    /// An entry that is no element: no object, one without a name, one with a member that no
    /// element has or whose value is of another type, or one with both a text and children.
    NotElement(Place),
    /// A name that no element has, or an attribute or a text that the element may not have.
    UnknownElement(Place),
    /// An element that may not stand there.
    Misplaced(Place),
    /// The attribute of this name is missing; or, on a Choose, its When.
    MissingAttribute(Place, Text),
    /// These two attributes may not stand together.
    BothAttributes(Place, Text, Text),
    /// A text that has to be a name and is none, with the place of its first bad byte.
    BadName(Place, u64),
    Memory,
}

impl From<NoMemory> for ReadFault {
    ghost from_gives = { λ _ e. e ≡ form.Memory };

    fn from(_: NoMemory) -> Self {
        ReadFault::Memory
    }
}

impl From<AllocError> for ReadFault {
    ghost from_gives = { λ _ e. e ≡ form.Memory };

    fn from(_: AllocError) -> Self {
        ReadFault::Memory
    }
}

impl<T: Drop> From<AllocFailed<T>> for ReadFault {
    ghost from_gives = { λ _ e. e ≡ form.Memory };

    fn from(_: AllocFailed<T>) -> Self {
        ReadFault::Memory
    }
}
