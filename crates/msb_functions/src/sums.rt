ghost use Rattle.std.specs.Prelude.{◌≡◌, [], ◌∷◌};
ghost use Rattle.msb_functions.specs.Answers.{Gives};
ghost use Rattle.msb_functions.specs.Functions.{build_row, of_numbers, operation_of, value_or};
ghost use Rattle.msb_functions.specs.Numbers.{if_fits, number_text};

use crate::names::BuildFunction;
use crate::numbers::{number, show};
use crate::{FuncFault, Word};
use std::alloc::Global;

/// What is done with two numbers.
#[derive(Clone, Copy)]
pub enum Operation {
    Sum,
    Difference,
    Product,
}

impl Operation {
    /// The result for these numbers, where 64 bits hold it.
    fn of(self, left: i64, right: i64) -> Option<i64>
        ensures { result ≡ if_fits (operation_of self left right) }
    {
        match self {
            Operation::Sum => left.checked_add(right),
            Operation::Difference => left.checked_sub(right),
            Operation::Product => left.checked_mul(right),
        }
    }
}

/// The value of a function of `[MSBuild]`.
pub(crate) fn build_value(
    alloc: Global,
    function: BuildFunction,
    args: &[Word],
) -> Result<Word, FuncFault>
    ensures { Gives result (build_row function args.now) }
{
    match args {
        [left, right] => of_two(alloc, function, left.as_str(), right.as_str()),
        _ => Err(FuncFault::BadArgument),
    }
}

fn of_two(
    alloc: Global,
    function: BuildFunction,
    left: &str,
    right: &str,
) -> Result<Word, FuncFault>
    ensures { Gives result (build_row function (left.now ∷ right.now ∷ [])) }
{
    match function {
        BuildFunction::Add => of_numbers(alloc, Operation::Sum, left, right),
        BuildFunction::Subtract => of_numbers(alloc, Operation::Difference, left, right),
        BuildFunction::Multiply => of_numbers(alloc, Operation::Product, left, right),
        BuildFunction::ValueOrDefault => Ok(Word::of(alloc, value_or(left, right))?),
    }
}

/// The result for the numbers that two texts are.
fn of_numbers(
    alloc: Global,
    operation: Operation,
    left: &str,
    right: &str,
) -> Result<Word, FuncFault>
    ensures { Gives result (of_numbers (operation_of operation) left.now right.now) }
{
    let left = number(left)?;
    let right = number(right)?;
    number_text(alloc, operation.of(left, right))
}

/// The text of a number, where 64 bits hold it.
fn number_text(alloc: Global, number: Option<i64>) -> Result<Word, FuncFault>
    ensures { Gives result (number_text number) }
{
    match number {
        Some(number) => Ok(show(alloc, number)?),
        None => Err(FuncFault::Overflow),
    }
}

/// The other text where this is empty.
fn value_or<'a>(text: &'a str, other: &'a str) -> &'a str
    ensures { result.now ≡ value_or text.now other.now }
{
    if text.is_empty() { other } else { text }
}
