ghost use Rattle.std.specs.Prelude.{◌≡◌, true, IfOk};
ghost use Rattle.std.specs.Char.{is_ascii_digit};
ghost use Rattle.std.specs.List.{list_all};
ghost use Rattle.std.specs.Fmt.{signed_decimal};
ghost use Rattle.msb_functions.specs.Numbers.{is_numeral, without_minus, is_number, number};

use crate::{FuncFault, NoRoom, Word};
use std::alloc::Global;

/// The whole number of 64 bits with sign that the text is.
pub(crate) fn number(text: &str) -> Result<i64, FuncFault>
    ensures { result ≡ number text.now }
{
    if !is_number(text) {
        return Err(FuncFault::BadArgument);
    }
    parse(text)
}

/// The whole number of 64 bits that a text of this form is.
fn parse(text: &str) -> Result<i64, FuncFault>
    requires { is_number text.now ≡ true }
    ensures { result ≡ number text.now }
{
    match text.parse::<i64>() {
        Ok(number) => Ok(number),
        Err(_) => Err(FuncFault::Overflow),
    }
}

/// Whether the text is an optional `-` and 1 to 19 digits.
fn is_number(text: &str) -> bool
    ensures { result ≡ is_number text.now }
{
    is_numeral(without_minus(text.as_bytes()))
}

fn without_minus(bytes: &[u8]) -> &[u8]
    ensures { result.now ≡ without_minus bytes.now }
{
    match bytes {
        [b'-', digits @ ..] => digits,
        _ => bytes,
    }
}

/// Whether these are 1 to 19 digits.
fn is_numeral(digits: &[u8]) -> bool
    ensures { result ≡ is_numeral digits.now }
{
    let count = digits.len();
    1 <= count && count <= 19 && are_digits(digits)
}

fn are_digits(bytes: &[u8]) -> bool
    ensures { result ≡ list_all is_ascii_digit bytes.now }
{
    bytes.iter().all(|byte| byte.is_ascii_digit())
}

/// The number in decimal, with a `-` where it is below 0.
pub(crate) fn show(alloc: Global, number: i64) -> Result<Word, NoRoom>
    ensures { IfOk result (λ word. word ≡ signed_decimal number) }
{
    Ok(Word::from(format!(in alloc; "{number}")?))
}
