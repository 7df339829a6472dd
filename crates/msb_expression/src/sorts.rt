ghost use Rattle.std.specs.Prelude.{◌≡◌, ◌≤◌, length, drop};
ghost use Rattle.msb_expression.specs.Machine as machine;
ghost use Rattle.msb_expression.specs.Answers.{Refuses};

use crate::ExprFault;

/// What a byte is to the grammar, or that there is none.
#[derive(Clone, Copy)]
pub(crate) enum Sort {
    End,
    Letter,
    Digit,
    Dash,
    Space,
    Quote,
    Open,
    Close,
    Comma,
    Dot,
    Greater,
    Dollar,
    Percent,
    At,
    Bracket,
    Other,
}

impl Sort {
    /// Whether such a byte may stand in a name behind its first.
    pub(crate) fn is_in_name(self) -> bool
        ensures { result ≡ machine.is_name_sort self }
    {
        matches!(self, Sort::Letter | Sort::Digit | Sort::Dash)
    }

    /// Whether such a byte ends an argument without quotes.
    pub(crate) fn ends_argument(self) -> bool
        ensures { result ≡ machine.ends_argument self }
    {
        matches!(self, Sort::Comma | Sort::Close)
    }
}

fn sort_of(byte: u8) -> Sort
    ensures { result ≡ machine.sort_of byte }
{
    match byte {
        b'a'..=b'z' | b'A'..=b'Z' | b'_' => Sort::Letter,
        b'0'..=b'9' => Sort::Digit,
        b'-' => Sort::Dash,
        b' ' => Sort::Space,
        b'\'' => Sort::Quote,
        b'(' => Sort::Open,
        b')' => Sort::Close,
        b',' => Sort::Comma,
        b'.' => Sort::Dot,
        b'>' => Sort::Greater,
        b'$' => Sort::Dollar,
        b'%' => Sort::Percent,
        b'@' => Sort::At,
        b'[' => Sort::Bracket,
        _ => Sort::Other,
    }
}

/// The sort of the byte at `at`.
pub(crate) fn sort_at(text: &str, at: usize) -> Sort
    ensures { result ≡ machine.first_sort (drop at text.now) }
{
    let bytes = text.as_bytes();
    if at < bytes.len() {
        sort_of(bytes[at])
    } else {
        Sort::End
    }
}

/// What is wrong where a byte can't stand.
#[derive(Clone, Copy)]
pub(crate) enum Kind {
    Name,
    Transform,
    Nested,
}

/// The refusal at `at`, where no byte that stands there can.
pub(crate) fn refusal(text: &str, at: usize, kind: Kind) -> ExprFault
    ensures { Refuses text.now result (machine.refused (drop at text.now) kind) }
{
    if at >= text.len() {
        return ExprFault::Unclosed(text.len() as u64);
    }
    let place = at as u64;
    match kind {
        Kind::Name => ExprFault::BadName(place),
        Kind::Transform => ExprFault::BadTransform(place),
        Kind::Nested => ExprFault::NestedTransform(place),
    }
}
