ghost use Rattle.std.specs.Prelude.{◌≡◌, ◌<◌, [], ◌∷◌, IfOk, length, string_bytes, nat_eq};
ghost use Rattle.std.specs.Fmt.{decimal};
ghost use Rattle.std.specs.List.{starts_with, ends_with};
ghost use Rattle.std.specs.Str.{chars};
ghost use Rattle.msb_functions.specs.Answers.{Gives};
ghost use Rattle.msb_functions.specs.Functions.{
  and_then,
  replace,
  substring,
  substring_from,
  text_row,
  truth_text,
};
ghost use Rattle.msb_functions.specs.Numbers.{number};
ghost use Rattle.msb_functions.specs.Texts.{contains, replaced, characters_at, characters_from};

use crate::names::TextFunction;
use crate::numbers::number;
use crate::{FuncFault, NoRoom, Word};
use std::alloc::{AllocError, Global};

/// The value of a function of a text.
pub(crate) fn text_value(
    alloc: Global,
    function: TextFunction,
    text: &str,
    args: &[Word],
) -> Result<Word, FuncFault>
    ensures { Gives result (text_row function text.now args.now) }
{
    match args {
        [] => of_none(alloc, function, text),
        [arg] => of_one(alloc, function, text, arg.as_str()),
        [first, second] => of_two(alloc, function, text, first.as_str(), second.as_str()),
        _ => Err(FuncFault::BadArgument),
    }
}

fn of_none(alloc: Global, function: TextFunction, text: &str) -> Result<Word, FuncFault>
    ensures { Gives result (text_row function text.now []) }
{
    match function {
        TextFunction::Trim => Ok(Word::of(alloc, text.trim())?),
        _ => Err(FuncFault::BadArgument),
    }
}

fn of_one(alloc: Global, function: TextFunction, text: &str, arg: &str) -> Result<Word, FuncFault>
    ensures { Gives result (text_row function text.now (arg.now ∷ [])) }
{
    match function {
        TextFunction::Substring => from_place(alloc, text, arg),
        TextFunction::StartsWith => Ok(truth(alloc, starts(text, arg))?),
        TextFunction::EndsWith => Ok(truth(alloc, ends(text, arg))?),
        TextFunction::Contains => Ok(truth(alloc, has(text, arg))?),
        _ => Err(FuncFault::BadArgument),
    }
}

fn of_two(
    alloc: Global,
    function: TextFunction,
    text: &str,
    first: &str,
    second: &str,
) -> Result<Word, FuncFault>
    ensures { Gives result (text_row function text.now (first.now ∷ second.now ∷ [])) }
{
    match function {
        TextFunction::Replace => replace(alloc, text, first, second),
        TextFunction::Substring => at_place(alloc, text, first, second),
        _ => Err(FuncFault::BadArgument),
    }
}

/// The number of characters of a text.
pub(crate) fn length(alloc: Global, text: &str) -> Result<Word, NoRoom>
    ensures { IfOk result (λ word. word ≡ decimal (length (chars text.now))) }
{
    let count = length_of(text);
    Ok(Word::from(format!(in alloc; "{count}")?))
}

fn length_of(text: &str) -> usize
    ensures { result ≡ length (chars text.now) }
{
    text.chars().count()
}

fn truth(alloc: Global, is: bool) -> Result<Word, NoRoom>
    ensures { IfOk result (λ word. word ≡ truth_text is) }
{
    Word::of(alloc, if is { "True" } else { "False" })
}

fn starts(text: &str, part: &str) -> bool
    ensures { result ≡ starts_with nat_eq text.now part.now }
{
    text.starts_with(part)
}

fn ends(text: &str, part: &str) -> bool
    ensures { result ≡ ends_with nat_eq text.now part.now }
{
    text.ends_with(part)
}

fn has(text: &str, part: &str) -> bool
    ensures { result ≡ contains text.now part.now }
{
    text.contains(part)
}

/// The text with each `from` replaced.
fn replace(alloc: Global, text: &str, from: &str, to: &str) -> Result<Word, FuncFault>
    ensures { Gives result (replace text.now from.now to.now) }
{
    if from.is_empty() {
        return Err(FuncFault::BadArgument);
    }
    Ok(replace_all(alloc, text, from, to)?)
}

fn replace_all(alloc: Global, text: &str, from: &str, to: &str) -> Result<Word, NoRoom>
    requires { 0 < length from.now }
    ensures { IfOk result (λ word. word ≡ replaced from.now to.now text.now) }
{
    Ok(Word::from(text.replace(alloc, from, to)?))
}

/// The characters from a place on.
fn from_place(alloc: Global, text: &str, place: &str) -> Result<Word, FuncFault>
    ensures { Gives result (and_then (number place.now) (substring_from text.now)) }
{
    let place = number(place)?;
    substring_from(alloc, text, place)
}

/// So many characters from a place on.
fn at_place(alloc: Global, text: &str, place: &str, count: &str) -> Result<Word, FuncFault>
    ensures { Gives result
        (and_then (number place.now)
        (λ from. and_then (number count.now) (substring text.now from))) }
{
    let place = number(place)?;
    let count = number(count)?;
    substring(alloc, text, place, count)
}

fn substring_from(alloc: Global, text: &str, place: i64) -> Result<Word, FuncFault>
    ensures { Gives result (substring_from text.now place) }
{
    if place < 0 || length_of(text) < place as usize {
        return Err(FuncFault::BadArgument);
    }
    Ok(Word::from(characters_from(alloc, text, place as usize)?))
}

fn substring(alloc: Global, text: &str, place: i64, count: i64) -> Result<Word, FuncFault>
    ensures { Gives result (substring text.now place count) }
{
    if place < 0 || count < 0 || length_of(text) < place as usize + count as usize {
        return Err(FuncFault::BadArgument);
    }
    Ok(Word::from(characters_at(alloc, text, place as usize, count as usize)?))
}

fn characters_from(alloc: Global, text: &str, place: usize) -> Result<String, AllocError>
    ensures { IfOk result (λ part. string_bytes part ≡ characters_from place text.now) }
{
    text.chars().skip(place).collect(alloc)
}

fn characters_at(
    alloc: Global,
    text: &str,
    place: usize,
    count: usize,
) -> Result<String, AllocError>
    ensures { IfOk result (λ part. string_bytes part ≡ characters_at place count text.now) }
{
    text.chars().skip(place).take(count).collect(alloc)
}
