ghost use Rattle.std.specs.Prelude.{
  ◌≡◌,
  ℕ,
  ◌+◌,
  ◌-◌,
  ◌<◌,
  ◌≤◌,
  ◌^◌,
  true,
  false,
  List,
  [],
  ◌∷◌,
  IfOk,
  IfSome,
  IfNone,
  IfErr,
  MatchOption,
  length,
  map,
};
ghost use Rattle.std.specs.List.{fold};
ghost use Rattle.msb_condition.specs.declared.faults.CondFault.TheVariants.{Memory};
ghost use Rattle.msb_condition.specs.declared.tokens.Kind.TheVariants as kind;
ghost use Rattle.msb_condition.specs.Leads.{
  Leads,
  run_on,
  run_at,
  step_on,
  step_at,
  bytes_in,
  HasRoom,
  takes_or,
  takes_and,
  starts_and,
  starts_or,
  is_word,
  IsOrAt,
  IsAndAt,
};
ghost use Rattle.msb_condition.specs.Machine.{
  Frame,
  not_of,
  group_of,
  operand,
  done,
  wants,
  wants_operand,
  end_unary,
  nested,
  unary_step,
  tree_step,
};
ghost use Rattle.msb_condition.specs.Places.{tokens_at, IsCut};
ghost use Rattle.msb_condition.specs.Tokens.{is_and, is_or};
ghost use Rattle.msb_condition.specs.Reading.{IsRefused};
ghost use Rattle.msb_condition.specs.Trees.{Tree, either, both};
ghost use Rattle.msb_condition.specs.View as view;
ghost use Rattle.msb_condition.specs.View.{tree_of};

use crate::operands::{operand, operand_of, syntax};
use crate::tokens::{Kind, Token, token_at};
use crate::words::{is_and, is_or, keyword_len};
use crate::{Comparison, Cond, CondFault, Operand};
use std::alloc::Global;

/// The `or` at `at`, and where it ends, with room for so many nested `!` and `(`.
#[cycle(or)]
pub(crate) fn or(
    alloc: Global,
    text: &str,
    at: usize,
    room: u64,
) -> Result<(Cond, usize), CondFault>
    requires { at ≤ length text.now }
    ensures leads { (frames : List Frame) → HasRoom frames room → takes_or frames ≡ true
        → Leads text.now result (run_at text.now at frames wants)
        (λ cond tokens. run_on text.now tokens frames (done (tree_of cond))) }
    ensures no_and { IfOk result (λ found. starts_and (tokens_at found.1 text.now) ≡ false) }
    ensures no_or { IfOk result (λ found. starts_or (tokens_at found.1 text.now) ≡ false) }
    ensures after { IfOk result (λ found. at ≤ found.1) }
    ensures within { IfOk result (λ found. found.1 ≤ length text.now) }
{
    let (first, end) = and(alloc, text, at, room)?;
    let (others, end) = more_or(alloc, text, end, room)?;
    Ok((any_of(alloc, first, others)?, end))
}

/// What stands behind each `Or` from `at` on, and where the last of it ends.
#[cycle(or)]
fn more_or(alloc: Global, text: &str, at: usize, room: u64) -> Result<(Vec<Cond>, usize), CondFault>
    requires within { at ≤ length text.now }
    requires no_and { starts_and (tokens_at at text.now) ≡ false }
    ensures leads { (frames : List Frame) (left : Tree) → HasRoom frames room
        → takes_or frames ≡ true
        → Leads text.now result (run_at text.now at frames (done left))
        (λ others tokens. run_on text.now tokens frames
        (done (fold either left (map tree_of others.items)))) }
    ensures no_and { IfOk result (λ found. starts_and (tokens_at found.1 text.now) ≡ false) }
    ensures no_or { IfOk result (λ found. starts_or (tokens_at found.1 text.now) ≡ false) }
    ensures after { IfOk result (λ found. at ≤ found.1) }
    ensures within { IfOk result (λ found. found.1 ≤ length text.now) }
{
    let mut others = Vec::new(alloc);
    let mut end = at;
    while let Some(next) = or_end(text, end) {
        let (other, behind) = and(alloc, text, next, room)?;
        others.push(other)?;
        end = behind;
    }
    Ok((others, end))
}

/// A condition, or one that holds where any of several do.
fn any_of(alloc: Global, first: Cond, others: Vec<Cond>) -> Result<Cond, CondFault>
    ensures tree { IfOk result (λ cond. tree_of cond
        ≡ fold either (tree_of first) (map tree_of others.items)) }
    ensures memory { IfErr result (λ fault. fault ≡ Memory) }
{
    if others.is_empty() {
        return Ok(first);
    }
    Ok(Cond::Or(Box::new(alloc, first)?, others))
}

/// The `and` at `at`, and where it ends.
#[cycle(or)]
fn and(alloc: Global, text: &str, at: usize, room: u64) -> Result<(Cond, usize), CondFault>
    requires { at ≤ length text.now }
    ensures leads { (frames : List Frame) → HasRoom frames room → takes_and frames ≡ true
        → Leads text.now result (run_at text.now at frames wants)
        (λ cond tokens. run_on text.now tokens frames (done (tree_of cond))) }
    ensures no_and { IfOk result (λ found. starts_and (tokens_at found.1 text.now) ≡ false) }
    ensures after { IfOk result (λ found. at ≤ found.1) }
    ensures within { IfOk result (λ found. found.1 ≤ length text.now) }
{
    let (first, end) = unary(alloc, text, at, room)?;
    let (others, end) = more_and(alloc, text, end, room)?;
    Ok((all_of(alloc, first, others)?, end))
}

/// What stands behind each `And` from `at` on, and where the last of it ends.
#[cycle(or)]
fn more_and(
    alloc: Global,
    text: &str,
    at: usize,
    room: u64,
) -> Result<(Vec<Cond>, usize), CondFault>
    requires within { at ≤ length text.now }
    ensures leads { (frames : List Frame) (left : Tree) → HasRoom frames room
        → takes_and frames ≡ true
        → Leads text.now result (run_at text.now at frames (done left))
        (λ others tokens. run_on text.now tokens frames
        (done (fold both left (map tree_of others.items)))) }
    ensures no_and { IfOk result (λ found. starts_and (tokens_at found.1 text.now) ≡ false) }
    ensures after { IfOk result (λ found. at ≤ found.1) }
    ensures within { IfOk result (λ found. found.1 ≤ length text.now) }
{
    let mut others = Vec::new(alloc);
    let mut end = at;
    while let Some(next) = and_end(text, end) {
        let (other, behind) = unary(alloc, text, next, room)?;
        others.push(other)?;
        end = behind;
    }
    Ok((others, end))
}

/// A condition, or one that holds where all of several do.
fn all_of(alloc: Global, first: Cond, others: Vec<Cond>) -> Result<Cond, CondFault>
    ensures tree { IfOk result (λ cond. tree_of cond
        ≡ fold both (tree_of first) (map tree_of others.items)) }
    ensures memory { IfErr result (λ fault. fault ≡ Memory) }
{
    if others.is_empty() {
        return Ok(first);
    }
    Ok(Cond::And(Box::new(alloc, first)?, others))
}

/// Where the `Or` behind `at` ends, if one stands there.
fn or_end(text: &str, at: usize) -> Option<usize>
    requires { at ≤ length text.now }
    ensures none { IfNone result (starts_or (tokens_at at text.now) ≡ false) }
    ensures some { IfSome result (λ end. IsOrAt text.now at end) }
{
    match token_at(text, at) {
        Some(
            Token {
                kind: Kind::Word,
                start,
                end,
            },
        ) if is_or(&text[start..end]) => Some(end),
        _ => None,
    }
}

/// Where the `And` behind `at` ends, if one stands there.
fn and_end(text: &str, at: usize) -> Option<usize>
    requires { at ≤ length text.now }
    ensures none { IfNone result (starts_and (tokens_at at text.now) ≡ false) }
    ensures some { IfSome result (λ end. IsAndAt text.now at end) }
{
    match token_at(text, at) {
        Some(
            Token {
                kind: Kind::Word,
                start,
                end,
            },
        ) if is_and(&text[start..end]) => Some(end),
        _ => None,
    }
}

/// The unary at `at`, and where it ends.
#[cycle(or)]
fn unary(alloc: Global, text: &str, at: usize, room: u64) -> Result<(Cond, usize), CondFault>
    requires { at ≤ length text.now }
    ensures leads { (frames : List Frame) → HasRoom frames room → wants_operand frames ≡ false
        → Leads text.now result (run_at text.now at frames wants)
        (λ cond tokens. step_on text.now (end_unary frames (tree_of cond)) tokens) }
    ensures after { IfOk result (λ found. at ≤ found.1) }
    ensures within { IfOk result (λ found. found.1 ≤ length text.now) }
{
    let Some(token) = token_at(text, at) else {
        return Err(syntax(text.len()));
    };
    match token.kind {
        Kind::Bang => negation(alloc, text, token, room),
        Kind::Compare(comparison) => Err(no_left_side(comparison, token.start, room)),
        Kind::Open => group(alloc, text, token, room),
        _ => {
            let (left, end) = operand_of(alloc, text, token, room)?;
            comparison(alloc, text, left, end, room)
        }
    }
}

/// The refusal of a comparison without a left side. A `!=` is refused at its `=`, where a `!` has
/// room.
fn no_left_side(comparison: Comparison, start: usize, room: u64) -> CondFault
    requires { start < 2 ^ 63 }
    ensures { (frames : List Frame) (text bytes : List ℕ) (at : ℕ) → HasRoom frames room
        → IsRefused result
        (step_at text (unary_step frames (kind.Compare comparison) start bytes) at) }
{
    match comparison {
        Comparison::NotEqual if room > 0 => syntax(start + 1),
        _ => syntax(start),
    }
}

/// The unary that begins with a `!`.
#[cycle(or)]
fn negation(alloc: Global, text: &str, bang: Token, room: u64) -> Result<(Cond, usize), CondFault>
    requires order { bang.start < bang.end }
    requires within { bang.end ≤ length text.now }
    ensures leads { (frames : List Frame) → HasRoom frames room
        → Leads text.now result (step_at text.now (nested frames not_of bang.start) bang.end)
        (λ cond tokens. step_on text.now (end_unary frames (tree_of cond)) tokens) }
    ensures after { IfOk result (λ found. bang.end ≤ found.1) }
    ensures within { IfOk result (λ found. found.1 ≤ length text.now) }
{
    if room == 0 {
        return Err(syntax(bang.start));
    }
    let (inner, end) = unary(alloc, text, bang.end, room - 1)?;
    Ok((Cond::Not(Box::new(alloc, inner)?), end))
}

/// The unary that begins with a `(`.
#[cycle(or)]
fn group(alloc: Global, text: &str, opening: Token, room: u64) -> Result<(Cond, usize), CondFault>
    requires order { opening.start < opening.end }
    requires within { opening.end ≤ length text.now }
    ensures leads { (frames : List Frame) → HasRoom frames room
        → Leads text.now result
        (step_at text.now (nested frames group_of opening.start) opening.end)
        (λ cond tokens. step_on text.now (end_unary frames (tree_of cond)) tokens) }
    ensures after { IfOk result (λ found. opening.end ≤ found.1) }
    ensures within { IfOk result (λ found. found.1 ≤ length text.now) }
{
    if room == 0 {
        return Err(syntax(opening.start));
    }
    let (inner, at) = or(alloc, text, opening.end, room - 1)?;
    match token_at(text, at) {
        Some(
            Token {
                kind: Kind::Close,
                end,
                ..
            },
        ) => Ok((inner, end)),
        Some(token) => Err(stray(text, token)),
        None => Err(syntax(text.len())),
    }
}

/// The refusal of a token behind an `or`: a word that begins like `and` or `or` is refused where it
/// leaves them.
pub(crate) fn stray(text: &str, token: Token) -> CondFault
    requires order { token.start < token.end }
    requires within { token.end ≤ length text.now }
    requires cut { IsCut text.now token }
    ensures { (frames : List Frame) (tree : Tree)
        → is_word is_and token.kind (bytes_in text.now token) ≡ false
        → is_word is_or token.kind (bytes_in text.now token) ≡ false
        → (token.kind ≡ kind.Close → frames ≡ [])
        → IsRefused result
        (step_at text.now (tree_step frames tree token.kind token.start (bytes_in text.now token))
        token.end) }
{
    match token.kind {
        Kind::Word => syntax(token.start + keyword_len(&text[token.start..token.end])),
        _ => syntax(token.start),
    }
}

/// The comparison of an operand with the one behind `at`, if there is one, and else the operand as
/// a truth value.
fn comparison(
    alloc: Global,
    text: &str,
    left: Operand,
    at: usize,
    room: u64,
) -> Result<(Cond, usize), CondFault>
    requires { at ≤ length text.now }
    ensures leads { (frames : List Frame) → HasRoom frames room → wants_operand frames ≡ false
        → Leads text.now result (run_at text.now at frames (operand (view.operand_of left)))
        (λ cond tokens. step_on text.now (end_unary frames (tree_of cond)) tokens) }
    ensures after { IfOk result (λ found. at ≤ found.1) }
    ensures within { IfOk result (λ found. found.1 ≤ length text.now) }
{
    match token_at(text, at) {
        Some(token) => match token.kind {
            Kind::Compare(comparison) => {
                let (right, end) = operand(alloc, text, token.end, room)?;
                Ok((Cond::Compare(comparison, left, right), end))
            }
            Kind::Equals | Kind::Bang => Err(syntax(token.start + 1)),
            _ => Ok((Cond::Truth(left), at)),
        },
        None => Ok((Cond::Truth(left), at)),
    }
}
