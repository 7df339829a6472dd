ghost use Rattle.std.specs.Prelude.{
  ◌≡◌,
  ℕ,
  ◌+◌,
  ◌-◌,
  ◌<◌,
  ◌≤◌,
  Bool,
  false,
  List,
  IfOk,
  length,
  take,
  drop,
};
ghost use Rattle.std.specs.Str.{IsCharBoundary};
ghost use Rattle.msb_expression.specs.Grammar.{Every, IsSpaces, is_name_byte};
ghost use Rattle.msb_expression.specs.Machine.{
  Host,
  Named,
  Mode,
  run,
  first_sort,
  is_name_sort,
  step_of,
  go,
  name_opened,
  in_name,
  type_opened,
  stepping,
  heads_of,
  is_arrow,
};
ghost use Rattle.msb_expression.specs.declared.expression.Part.{Part};
ghost use Rattle.msb_expression.specs.declared.sorts.Sort.TheVariants.{Space, Letter};
ghost use Rattle.msb_expression.specs.Answers.{Leads, TakesName, IsNameAt, EndsType};

use crate::sorts::{Kind, Sort, refusal, sort_at};
use crate::{ExprFault, NoRoom, Word};
use std::alloc::Global;

/// Where the spaces at `at` end.
pub(crate) fn spaces_end(text: &str, at: usize) -> usize
    requires { at ≤ length text.now }
    ensures after { at ≤ result }
    ensures within { result ≤ length text.now }
    ensures over { (mode : Mode) → step_of mode Space 32 ≡ go mode
        → run (drop at text.now) mode ≡ run (drop result text.now) mode }
    ensures no_space { first_sort (drop result text.now) ≡ Space → ⊥ }
    ensures spaces { IsSpaces (take (result - at) (drop at text.now)) }
{
    let mut end = at;
    while let Sort::Space = sort_at(text, end) {
        end += 1;
    }
    end
}

/// Where the letters, digits, `_` and `-` at `at` end.
pub(crate) fn name_end(text: &str, at: usize) -> usize
    requires { at ≤ length text.now }
    ensures after { at ≤ result }
    ensures within { result ≤ length text.now }
    ensures bytes { Every is_name_byte (take (result - at) (drop at text.now)) }
    ensures over { is_name_sort (first_sort (drop result text.now)) ≡ false }
{
    let mut end = at;
    while sort_at(text, end).is_in_name() {
        end += 1;
    }
    end
}

/// The text from `start` to `end`.
pub(crate) fn piece_of(alloc: Global, text: &str, start: usize, end: usize) -> Result<Word, NoRoom>
    requires order { start ≤ end }
    requires start_cut { IsCharBoundary text.now start }
    requires end_cut { IsCharBoundary text.now end }
    ensures { IfOk result (λ word. word ≡ take (end - start) (drop start text.now)) }
{
    Word::of(alloc, &text[start..end])
}

/// The name that begins at `start`, and where it ends.
pub(crate) fn name_at(alloc: Global, text: &str, start: usize) -> Result<(Word, usize), NoRoom>
    requires { first_sort (drop start text.now) ≡ Letter }
    ensures name { IfOk result (λ found. IsNameAt text.now start found.0 found.1) }
    ensures over { IfOk result (λ found. is_name_sort (first_sort (drop found.1 text.now))
        ≡ false) }
{
    let end = name_end(text, start);
    Ok((piece_of(alloc, text, start, end)?, end))
}

/// Whether `->` stands at `at`.
fn is_arrow(text: &str, at: usize) -> bool
    requires { at < length text.now }
    ensures { result ≡ is_arrow (drop at text.now) }
{
    let rest = &text.as_bytes()[at..];
    rest.len() > 1 && rest[0] == b'-' && rest[1] == b'>'
}

/// Where the type name that begins at `start` ends: a last `-` that a `>` follows is none of it.
fn type_end(text: &str, start: usize) -> usize
    requires { first_sort (drop start text.now) ≡ Letter }
    ensures after { start < result }
    ensures within { result ≤ length text.now }
    ensures bytes { Every is_name_byte (take (result - start) (drop start text.now)) }
    ensures ends { EndsType (take (result - start) (drop start text.now)) (drop result text.now) }
{
    let end = name_end(text, start);
    if is_arrow(text, end - 1) {
        end - 1
    } else {
        end
    }
}

/// The type name that begins at `start`, and where it ends.
fn type_at(alloc: Global, text: &str, start: usize) -> Result<(Word, usize), NoRoom>
    requires { first_sort (drop start text.now) ≡ Letter }
    ensures name { IfOk result (λ found. IsNameAt text.now start found.0 found.1) }
    ensures ends { IfOk result (λ found. EndsType found.0 (drop found.1 text.now)) }
{
    let end = type_end(text, start);
    Ok((piece_of(alloc, text, start, end)?, end))
}

/// The name behind the spaces at `at`, and where it ends.
pub(crate) fn name(alloc: Global, text: &str, at: usize) -> Result<(Word, usize), ExprFault>
    requires { at ≤ length text.now }
    ensures leads { (host : Host) (which : Named)
        → Leads text.now result (run (drop at text.now) (name_opened host which))
        (λ name rest. run rest (in_name host which name)) }
    ensures takes { (mode : Mode) (named : List ℕ → Mode) → TakesName mode named
        → Leads text.now result (run (drop at text.now) mode) (λ name rest. run rest (named name)) }
    ensures after { IfOk result (λ found. at < found.1) }
    ensures within { IfOk result (λ found. found.1 ≤ length text.now) }
    ensures over { IfOk result (λ found. is_name_sort (first_sort (drop found.1 text.now))
        ≡ false) }
{
    let start = spaces_end(text, at);
    match sort_at(text, start) {
        Sort::Letter => Ok(name_at(alloc, text, start)?),
        _ => Err(refusal(text, start, Kind::Name)),
    }
}

/// The type name behind the spaces at `at`, and where it ends.
pub(crate) fn type_name(alloc: Global, text: &str, at: usize) -> Result<(Word, usize), ExprFault>
    requires { at ≤ length text.now }
    ensures leads { (parts : List Part)
        → Leads text.now result (run (drop at text.now) (type_opened parts))
        (λ kind rest. run rest (stepping (heads_of parts kind))) }
    ensures after { IfOk result (λ found. at < found.1) }
    ensures within { IfOk result (λ found. found.1 ≤ length text.now) }
{
    let start = spaces_end(text, at);
    match sort_at(text, start) {
        Sort::Letter => Ok(type_at(alloc, text, start)?),
        _ => Err(refusal(text, start, Kind::Name)),
    }
}
