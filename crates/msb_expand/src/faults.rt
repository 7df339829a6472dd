ghost use Rattle.std.specs.Prelude.{◌≡◌};
ghost use Rattle.msb_expand.specs.declared.faults.ExpandFault.TheVariants.{Memory};
ghost use Rattle.msb_expand.specs.Causes.{expression_cause_of};

use msb_expression::ExprFault;
use msb_values::{Cause, NoMemory, Text};

/// Why an expression has no value.
#[derive(Drop)]
pub enum ExpandFault {
    /// An item reference stands where none may.
    ItemsHere,
    /// A metadata reference stands where none may, or is qualified by another type than the item's.
    MetadataHere,
    /// No item function has this name, as it is written, and this number of arguments, or no
    /// property function has this name and form.
    UnknownFunction(Text),
    /// An argument of this property function, as it is written, is none that it takes, or their
    /// number is wrong.
    BadArgument(Text),
    /// A result or an argument of this property function is outside 64 bits.
    Overflow(Text),
    /// The text, or the identities of the list with one byte more for each, have over 4 MiB.
    TooLong,
    /// An entry of a list has an item reference beside other characters.
    MixedList,
    /// This identity, unescaped, can't be made a normal path.
    BadPath(Text),
    /// The value of a property, which is read again for item references, has no reading.
    Expr(ExprFault),
    Memory,
}

impl From<NoMemory> for ExpandFault {
    ghost from_gives = { λ _ e. e ≡ Memory };

    fn from(_: NoMemory) -> Self {
        ExpandFault::Memory
    }
}

impl From<ExpandFault> for Cause {
    ghost use Rattle.msb_expand.specs.Causes.{cause_of};

    ghost from_gives = { λ e c. c ≡ cause_of e };

    fn from(fault: ExpandFault) -> Self {
        match fault {
            ExpandFault::ItemsHere => Cause::ItemsHere,
            ExpandFault::MetadataHere => Cause::MetadataHere,
            ExpandFault::UnknownFunction(name) => Cause::UnknownFunction(name),
            ExpandFault::BadArgument(name) => Cause::BadArgument(name),
            ExpandFault::Overflow(name) => Cause::Overflow(name),
            ExpandFault::TooLong => Cause::TooLong,
            ExpandFault::MixedList => Cause::MixedList,
            ExpandFault::BadPath(ident) => Cause::BadPath(ident),
            ExpandFault::Expr(fault) => expression_cause(fault),
            ExpandFault::Memory => Cause::Memory,
        }
    }
}

/// Why a text is no expression, as a cause.
pub fn expression_cause(fault: ExprFault) -> Cause
    ensures { result ≡ expression_cause_of fault }
{
    match fault {
        ExprFault::Unclosed(place) => Cause::Unclosed(place),
        ExprFault::BadName(place) => Cause::BadName(place),
        ExprFault::BadTransform(place) => Cause::BadTransform(place),
        ExprFault::NestedTransform(place) => Cause::NestedTransform(place),
        ExprFault::Memory => Cause::Memory,
    }
}
