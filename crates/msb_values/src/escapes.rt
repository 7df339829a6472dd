ghost use Rattle.std.specs.Prelude.{
  ◌≡◌,
  ◌<◌,
  ◌≤◌,
  ◌++◌,
  ◌∷◌,
  [],
  true,
  false,
  IfOk,
  OnOk,
  MatchOption,
  length,
  drop,
  string_bytes,
};
ghost use Rattle.std.specs.Char.{digit_value, encode_utf8};
ghost use Rattle.std.specs.Str.{IsUtf8};
ghost use Rattle.msb_values.specs.Escapes.{escape_of, escaped, unescaped, number_at, is_hex};

use crate::{NoMemory, Text};
use std::alloc::Global;

/// The text with `%`, `$`, `@`, `'`, `;`, `?` and `*` written as `%25`, `%24`, `%40`, `%27`, `%3B`,
/// `%3F` and `%2A`.
///
/// [`unescape`] gives the text back. (MSBuild special characters.)
pub fn escape(alloc: Global, text: &str) -> Result<Text, NoMemory>
    ensures value { IfOk result (λ t. t ≡ escaped text.now) }
    ensures back { IfOk result (λ t. unescaped t ≡ text.now) }
{
    let mut written = String::new(alloc);
    for character in text.chars() {
        push_escaped(&mut written, character)?;
    }
    Ok(Text::from(written))
}

fn push_escaped(written: &mut String, character: char) -> Result<(), NoMemory>
    ensures { OnOk result (string_bytes written.new
        ≡ string_bytes written.old ++ escaped (encode_utf8 character)) }
{
    match special_escape(character) {
        Some(escape) => Ok(written.push_str(escape)?),
        None => Ok(written.push(character)?),
    }
}

/// How a special character is written.
fn special_escape(character: char) -> Option<&'static str>
    ensures { MatchOption result (escape_of character ≡ character ∷ [])
        (λ escape. (escape.now ≡ escape_of character) × (character < 128)) }
{
    match character {
        '%' => Some("%25"),
        '$' => Some("%24"),
        '@' => Some("%40"),
        '\'' => Some("%27"),
        ';' => Some("%3B"),
        '?' => Some("%3F"),
        '*' => Some("%2A"),
        _ => None,
    }
}

/// The text with the character of number XX for each `%XX`, where XX are two hexadecimal digits in
/// either case.
///
/// A `%` without two such digits behind it stays, and what comes out is not read again: `%2541` is
/// `%41`. (MSBuild special characters.)
pub fn unescape(alloc: Global, text: &str) -> Result<Text, NoMemory>
    ensures { IfOk result (λ t. t ≡ unescaped text.now) }
{
    let mut plain = String::new(alloc);
    let mut rest = text;
    while let Some((before, after)) = rest.split_once('%') {
        plain.push_str(before)?;
        rest = push_unescaped(&mut plain, after)?;
    }
    plain.push_str(rest)?;
    Ok(Text::from(plain))
}

/// Writes what a `%` before this text stands for, and gives what is left of the text.
fn push_unescaped<'a>(plain: &mut String, after: &'a str) -> Result<&'a str, NoMemory>
    ensures read { IfOk result (λ rest. string_bytes plain.new ++ unescaped rest.now
        ≡ string_bytes plain.old ++ unescaped (37 ∷ after.now)) }
    ensures bound { IfOk result (λ rest. length rest.now ≤ length after.now) }
    ensures utf8 { IfOk result (λ rest. IsUtf8 rest.now) }
{
    match escaped_character(after) {
        Some((character, rest)) => {
            plain.push(character)?;
            Ok(rest)
        }
        None => {
            plain.push('%')?;
            Ok(after)
        }
    }
}

/// The character of the two hexadecimal digits that a text begins with, and what follows them.
fn escaped_character(text: &str) -> Option<(char, &str)>
    ensures { MatchOption result (number_at text.now ≡ None)
        (λ x. (number_at text.now ≡ Some x.0) × (x.1.now ≡ drop 2 text.now) × IsUtf8 x.1.now) }
{
    match escaped_number(text.as_bytes()) {
        Some(number) => Some((char::from(number), &text[2..])),
        None => None,
    }
}

/// The number of the two hexadecimal digits that a text begins with.
fn escaped_number(bytes: &[u8]) -> Option<u8>
    ensures { result ≡ number_at bytes.now }
{
    match bytes {
        [high, low, ..] => match (hex_value(*high), hex_value(*low)) {
            (Some(high), Some(low)) => Some((high * 16 + low) as u8),
            _ => None,
        },
        _ => None,
    }
}

/// The value of a hexadecimal digit.
fn hex_value(byte: u8) -> Option<u32>
    ensures { MatchOption result (is_hex byte ≡ false)
        (λ value. (is_hex byte ≡ true) × (value ≡ digit_value byte) × (value < 16)) }
{
    char::from(byte).to_digit(16)
}
