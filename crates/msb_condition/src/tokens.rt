ghost use Rattle.std.specs.Prelude.{◌≡◌, ◌<◌, ◌≤◌, false, IfSome, length, drop};
ghost use Rattle.std.specs.List.{prefix_len};
ghost use Rattle.msb_condition.specs.Places.{IsNext, IsCut, Fits, tokens_at};
ghost use Rattle.msb_condition.specs.Tokens.{
  is_space,
  is_word_byte,
  begins_with,
  joined,
  quoted_kind,
  kind_of,
  more_of,
};

use crate::Comparison;
use crate::extents::{reference_len, text_len};

/// What kind of token it is.
#[derive(Clone, Copy)]
pub(crate) enum Kind {
    /// `!`
    Bang,
    /// `=`, which only another `=` can follow.
    Equals,
    Compare(Comparison),
    Open,
    Close,
    /// Letters, digits, `_`, `.`, `+` and `-`.
    Word,
    /// A text between quotes.
    Quoted,
    /// A text with no quote at its end.
    Unended,
    /// `$(..)`, `%(..)` or `@(..)`
    Reference,
    /// `$`, `%` or `@`, which only a `(` can follow.
    Sign,
    Other,
}

/// A token of a text: the bytes from `start` to `end`.
#[derive(Clone, Copy)]
pub(crate) struct Token {
    pub(crate) kind: Kind,
    pub(crate) start: usize,
    pub(crate) end: usize,
}

/// The first token behind `at`, if there is one.
pub(crate) fn token_at(text: &str, at: usize) -> Option<Token>
    requires { at ≤ length text.now }
    ensures next { IsNext text.now at result }
    ensures after { IfSome result (λ token. at ≤ token.start) }
    ensures order { IfSome result (λ token. token.start < token.end) }
    ensures within { IfSome result (λ token. token.end ≤ length text.now) }
    ensures cut { IfSome result (λ token. IsCut text.now token) }
{
    let bytes = text.as_bytes();
    let start = spaces_end(bytes, at);
    if start == bytes.len() {
        return None;
    }
    let rest = &bytes[start + 1..];
    let kind = kind_of(bytes[start], rest);
    let end = start + 1 + more_of(kind, rest);
    Some(Token { kind, start, end })
}

/// Where the spaces at `at` end.
fn spaces_end(text: &[u8], at: usize) -> usize
    requires { at ≤ length text.now }
    ensures after { at ≤ result }
    ensures within { result ≤ length text.now }
    ensures over { tokens_at at text.now ≡ tokens_at result text.now }
    ensures no_space { begins_with is_space (drop result text.now) ≡ false }
{
    let mut end = at;
    while end < text.len() && is_space(text[end]) {
        end += 1;
    }
    end
}

fn is_space(byte: u8) -> bool
    ensures { result ≡ is_space byte }
{
    matches!(byte, b' ' | b'\t' | b'\r' | b'\n')
}

fn is_word_byte(byte: u8) -> bool
    ensures { result ≡ is_word_byte byte }
{
    matches!(byte, b'a'..=b'z' | b'A'..=b'Z' | b'0'..=b'9' | b'_' | b'.' | b'+' | b'-')
}

/// What begins with a byte, by what follows it.
fn kind_of(byte: u8, rest: &[u8]) -> Kind
    ensures { result ≡ kind_of byte rest.now }
{
    match byte {
        b'a'..=b'z' | b'A'..=b'Z' | b'0'..=b'9' | b'_' | b'.' | b'+' | b'-' => Kind::Word,
        b'\'' => quoted_kind(rest),
        b'(' => Kind::Open,
        b')' => Kind::Close,
        b'!' => choose_kind(b'=', Kind::Compare(Comparison::NotEqual), Kind::Bang, rest),
        b'=' => choose_kind(b'=', Kind::Compare(Comparison::Equal), Kind::Equals, rest),
        b'<' => choose_kind(
            b'=',
            Kind::Compare(Comparison::LessOrEqual),
            Kind::Compare(Comparison::Less),
            rest,
        ),
        b'>' => choose_kind(
            b'=',
            Kind::Compare(Comparison::GreaterOrEqual),
            Kind::Compare(Comparison::Greater),
            rest,
        ),
        b'$' | b'%' | b'@' => choose_kind(b'(', Kind::Reference, Kind::Sign, rest),
        _ => Kind::Other,
    }
}

/// Of two kinds, the one that the next byte is a part of, or the other.
fn choose_kind(byte: u8, with_it: Kind, without: Kind, rest: &[u8]) -> Kind
    ensures { result ≡ joined byte with_it without rest.now }
{
    match rest.first() {
        Some(next) if *next == byte => with_it,
        _ => without,
    }
}

fn quoted_kind(rest: &[u8]) -> Kind
    ensures { result ≡ quoted_kind rest.now }
{
    if text_len(rest) < rest.len() {
        Kind::Quoted
    } else {
        Kind::Unended
    }
}

/// How many bytes a token of this kind has behind its first.
fn more_of(kind: Kind, rest: &[u8]) -> usize
    requires { Fits kind rest.now }
    ensures value { result ≡ more_of kind rest.now }
    ensures within { result ≤ length rest.now }
{
    match kind {
        Kind::Word => word_len(rest),
        Kind::Quoted => text_len(rest) + 1,
        Kind::Unended => rest.len(),
        Kind::Reference => reference_len(&rest[1..]) + 1,
        Kind::Compare(Comparison::Less | Comparison::Greater) => 0,
        Kind::Compare(_) => 1,
        _ => 0,
    }
}

/// How many bytes of a word come first.
fn word_len(text: &[u8]) -> usize
    ensures value { result ≡ prefix_len is_word_byte text.now }
    ensures within { result ≤ length text.now }
{
    for (at, byte) in text.iter().enumerate() {
        if !is_word_byte(*byte) {
            return at;
        }
    }
    text.len()
}
