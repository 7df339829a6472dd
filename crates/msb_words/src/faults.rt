ghost use Rattle.std.specs.Prelude.{◌≡◌};
ghost use Rattle.msb_words.specs.Answers.{fault_of_name};
ghost use Rattle.msb_words.specs.declared.faults.WordFault.TheVariants.{Memory};

use msb_values::{NameFault, NoMemory};
use std::alloc::AllocError;

/// Why the words ask for nothing.
#[derive(Clone, Copy, Debug, PartialEq, Eq)]
pub enum WordFault {
    /// The words are outside the grammar.
    Usage,
    Memory,
}

impl From<NoMemory> for WordFault {
    ghost from_gives = { λ _ fault. fault ≡ Memory };

    fn from(_: NoMemory) -> WordFault {
        WordFault::Memory
    }
}

impl From<AllocError> for WordFault {
    ghost from_gives = { λ _ fault. fault ≡ Memory };

    fn from(_: AllocError) -> WordFault {
        WordFault::Memory
    }
}

impl From<NameFault> for WordFault {
    ghost from_gives = { λ name fault. fault ≡ fault_of_name name };

    fn from(fault: NameFault) -> WordFault {
        match fault {
            NameFault::BadName(_) => WordFault::Usage,
            NameFault::Memory => WordFault::Memory,
        }
    }
}
