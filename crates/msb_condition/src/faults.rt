ghost use Rattle.std.specs.Prelude.{◌≡◌};
ghost use Rattle.msb_condition.specs.declared.faults.CondFault.TheVariants.{Memory};

use msb_expand::ExpandFault;
use msb_expression::NoRoom;
use msb_values::{Cause, NoMemory, Text};
use std::alloc::AllocFailed;

/// Why a condition is not read, or has no truth value.
#[derive(Drop)]
pub enum CondFault {
    /// The place of the first byte at which no text that begins so is a condition, or the text's
    /// length.
    Syntax(u64),
    /// A text that is needed as a truth value and is none.
    NotBoolean(Text),
    /// The two sides of an order comparison, of which one is no number.
    NotNumbers(Text, Text),
    /// A fault of an expression; one of its grammar has its place in the condition.
    Expand(ExpandFault),
    Memory,
}

impl From<NoMemory> for CondFault {
    ghost from_gives = { λ _ e. e ≡ Memory };

    fn from(_: NoMemory) -> Self {
        CondFault::Memory
    }
}

impl From<ExpandFault> for CondFault {
    ghost use Rattle.msb_condition.specs.Causes.{fault_of};

    ghost from_gives = { λ fault e. e ≡ fault_of fault };

    /// Want of memory stays what it is.
    fn from(fault: ExpandFault) -> Self {
        match fault {
            ExpandFault::Memory => CondFault::Memory,
            fault => CondFault::Expand(fault),
        }
    }
}

impl From<NoRoom> for CondFault {
    ghost from_gives = { λ _ e. e ≡ Memory };

    fn from(_: NoRoom) -> Self {
        CondFault::Memory
    }
}

impl<T: Drop> From<AllocFailed<T>> for CondFault {
    ghost from_gives = { λ _ e. e ≡ Memory };

    fn from(_: AllocFailed<T>) -> Self {
        CondFault::Memory
    }
}

impl From<CondFault> for Cause {
    ghost use Rattle.msb_condition.specs.Causes.{cause_of};

    ghost from_gives = { λ e c. c ≡ cause_of e };

    fn from(fault: CondFault) -> Self {
        match fault {
            CondFault::Syntax(place) => Cause::Syntax(place),
            CondFault::NotBoolean(text) => Cause::NotBoolean(text),
            CondFault::NotNumbers(left, right) => Cause::NotNumbers(left, right),
            CondFault::Expand(fault) => Cause::from(fault),
            CondFault::Memory => Cause::Memory,
        }
    }
}
