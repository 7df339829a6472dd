ghost use Rattle.std.specs.Prelude.{◌≡◌, ◌≤◌, length};
ghost use Rattle.std.specs.List.{common_prefix_len};
ghost use Rattle.std.specs.Char.{eq_ignore_ascii_case};
ghost use Rattle.msb_condition.specs.Grammar.{function_of};
ghost use Rattle.msb_condition.specs.Tokens.{is_and, is_or, keyword_len};

use crate::Function;

/// Whether a word is `and`, without case.
pub(crate) fn is_and(word: &str) -> bool
    ensures { result ≡ is_and word.now }
{
    word.eq_ignore_ascii_case("and")
}

/// Whether a word is `or`, without case.
pub(crate) fn is_or(word: &str) -> bool
    ensures { result ≡ is_or word.now }
{
    word.eq_ignore_ascii_case("or")
}

/// The function of this name, without case.
pub(crate) fn function_of(word: &str) -> Option<Function>
    ensures { result ≡ function_of word.now }
{
    if word.eq_ignore_ascii_case("Exists") {
        Some(Function::Exists)
    } else if word.eq_ignore_ascii_case("HasTrailingSlash") {
        Some(Function::HasTrailingSlash)
    } else {
        None
    }
}

/// How many bytes of a word begin `and` or `or`.
pub(crate) fn keyword_len(word: &str) -> usize
    ensures value { result ≡ keyword_len word.now }
    ensures small { result ≤ 5 }
{
    common_len(word.as_bytes(), b"and") + common_len(word.as_bytes(), b"or")
}

/// How many bytes two words begin with alike, without case.
fn common_len(word: &[u8], other: &[u8]) -> usize
    ensures value { result ≡ common_prefix_len eq_ignore_ascii_case word.now other.now }
    ensures within { result ≤ length other.now }
{
    let mut len = 0;
    while len < word.len() && len < other.len() && word[len].eq_ignore_ascii_case(&other[len]) {
        len += 1;
    }
    len
}
