ghost use Rattle.std.specs.Prelude.{◌≡◌};
ghost use Rattle.msb_condition.specs.Numbers as numbers;
ghost use Rattle.msb_values.specs.Truths.{truth_of};
ghost use Rattle.msb_condition.specs.Answers.{Gives};
ghost use Rattle.msb_condition.specs.Truth.{same_values, equal, in_order, ordered, compare};

use crate::numbers::{Number, number_of};
use crate::{Comparison, CondFault};
use msb_values::{Text, same_text, truth_of};

/// Whether a comparison of two texts holds: an order needs two numbers. (MSBuild conditions.)
pub(crate) fn compare(comparison: Comparison, left: Text, right: Text) -> Result<bool, CondFault>
    ensures { Gives result (compare comparison left right) }
{
    match comparison {
        Comparison::Equal => Ok(equal(left.as_str(), right.as_str())),
        Comparison::NotEqual => Ok(!equal(left.as_str(), right.as_str())),
        _ => compare_numbers(comparison, left, right),
    }
}

/// Whether two texts are numbers in this order.
fn compare_numbers(comparison: Comparison, left: Text, right: Text) -> Result<bool, CondFault>
    ensures { Gives result
        (ordered comparison left right (numbers.number_of left) (numbers.number_of right)) }
{
    match number_of(left.as_str().as_bytes()) {
        Some(a) => match number_of(right.as_str().as_bytes()) {
            Some(b) => Ok(in_order(comparison, a, b)),
            None => Err(CondFault::NotNumbers(left, right)),
        },
        None => Err(CondFault::NotNumbers(left, right)),
    }
}

fn in_order(comparison: Comparison, left: Number, right: Number) -> bool
    ensures { result ≡ in_order comparison left right }
{
    match comparison {
        Comparison::Less => left.is_less(right),
        Comparison::Greater => right.is_less(left),
        Comparison::LessOrEqual => !right.is_less(left),
        Comparison::GreaterOrEqual => !left.is_less(right),
        Comparison::Equal => left.is_equal(right),
        Comparison::NotEqual => !left.is_equal(right),
    }
}

/// Whether two texts are equal, as numbers if both are, else as truth values if both are, and else
/// without case.
fn equal(left: &str, right: &str) -> bool
    ensures { result ≡ equal left.now right.now }
{
    match number_of(left.as_bytes()) {
        Some(a) => match number_of(right.as_bytes()) {
            Some(b) => a.is_equal(b),
            None => same_values(left, right),
        },
        None => same_values(left, right),
    }
}

/// Whether two texts are equal, as truth values if both are, and else without case.
fn same_values(left: &str, right: &str) -> bool
    ensures { result ≡ same_values left.now right.now (truth_of left.now) (truth_of right.now) }
{
    match truth_of(left) {
        Some(a) => match truth_of(right) {
            Some(b) => a == b,
            None => same_text(left, right),
        },
        None => same_text(left, right),
    }
}
