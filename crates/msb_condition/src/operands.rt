ghost use Rattle.std.specs.Prelude.{
  ◌≡◌,
  ℕ,
  ◌+◌,
  ◌-◌,
  ◌<◌,
  ◌≤◌,
  ◌^◌,
  true,
  false,
  List,
  [],
  ◌∷◌,
  IfOk,
  IfErr,
  IfSome,
  IfNone,
  length,
  take,
  drop,
};
ghost use Rattle.std.specs.Str.{IsCharBoundary};
ghost use Rattle.msb_expression.specs.Reading.{reading};
ghost use Rattle.msb_expression.specs.declared.expression.Part.TheVariants.{Plain};
ghost use Rattle.msb_expression.specs.declared.faults.ExprFault.{ExprFault};
ghost use Rattle.msb_condition.specs.declared.faults.CondFault.TheVariants.{Syntax, Memory};
ghost use Rattle.msb_condition.specs.declared.condition.Function.{Function};
ghost use Rattle.msb_condition.specs.declared.tokens.Kind.TheVariants as kind;
ghost use Rattle.msb_condition.specs.Grammar.{of_parts};
ghost use Rattle.msb_condition.specs.Leads.{
  Leads,
  GoesOn,
  run_at,
  step_on,
  step_at,
  bytes_in,
  HasRoom,
  IsOpenAt,
  starts_open,
  IsMoved,
  IsPlaced,
};
ghost use Rattle.msb_condition.specs.Machine as machine;
ghost use Rattle.msb_condition.specs.Machine.{
  Frame,
  call_of,
  operand,
  wants,
  named,
  wants_operand,
  end_operand,
  end_text,
  end_unended,
  word_step,
  operand_step,
  nested,
  moved,
  inside,
};
ghost use Rattle.msb_condition.specs.Places.{IsCut, tokens_at};
ghost use Rattle.msb_condition.specs.Reading.{IsRefused};
ghost use Rattle.msb_condition.specs.Trees as trees;
ghost use Rattle.msb_condition.specs.Trees.{call};
ghost use Rattle.msb_condition.specs.View as view;

use crate::tokens::{Kind, Token, token_at};
use crate::words::{function_of, is_and, is_or};
use crate::{CondFault, Function, Operand};
use msb_expand::ExpandFault;
use msb_expression::{Expr, ExprFault, Part, Parts, Word};
use std::alloc::Global;

/// The refusal of a byte.
pub(crate) fn syntax(place: usize) -> CondFault
    requires { place < 2 ^ 64 }
    ensures { result ≡ Syntax place }
{
    CondFault::Syntax(place as u64)
}

/// The operand at `at`, and where it ends.
#[cycle(operand)]
pub(crate) fn operand(
    alloc: Global,
    text: &str,
    at: usize,
    room: u64,
) -> Result<(Operand, usize), CondFault>
    requires { at ≤ length text.now }
    ensures leads { (frames : List Frame) → HasRoom frames room → wants_operand frames ≡ true
        → Leads text.now result (run_at text.now at frames wants)
        (λ left tokens. step_on text.now (end_operand frames (view.operand_of left)) tokens) }
    ensures after { IfOk result (λ found. at ≤ found.1) }
    ensures within { IfOk result (λ found. found.1 ≤ length text.now) }
{
    match token_at(text, at) {
        Some(token) => operand_of(alloc, text, token, room),
        None => Err(syntax(text.len())),
    }
}

/// The operand that begins with a token, and where it ends.
#[cycle(operand)]
pub(crate) fn operand_of(
    alloc: Global,
    text: &str,
    token: Token,
    room: u64,
) -> Result<(Operand, usize), CondFault>
    requires within { token.end ≤ length text.now }
    requires order { token.start < token.end }
    requires cut { IsCut text.now token }
    ensures leads { (frames : List Frame) → HasRoom frames room
        → Leads text.now result
        (step_at text.now (operand_step frames token.kind token.start (bytes_in text.now token))
        token.end)
        (λ left tokens. step_on text.now (end_operand frames (view.operand_of left)) tokens) }
    ensures after { IfOk result (λ found. token.end ≤ found.1) }
    ensures within { IfOk result (λ found. found.1 ≤ length text.now) }
{
    match token.kind {
        Kind::Word => word(alloc, text, token, room),
        Kind::Quoted => expression(alloc, text, token.start + 1, token.end - 1, token.end),
        Kind::Unended => Err(unended_fault(alloc, text, token.start + 1)),
        Kind::Reference => expression(alloc, text, token.start, token.end, token.end),
        Kind::Sign => Err(syntax(token.start + 1)),
        _ => Err(syntax(token.start)),
    }
}

/// The expression from `start` to `end`, as an operand that is whole at `behind`.
fn expression(
    alloc: Global,
    text: &str,
    start: usize,
    end: usize,
    behind: usize,
) -> Result<(Operand, usize), CondFault>
    requires order { start ≤ end }
    requires within { behind ≤ length text.now }
    requires start_cut { IsCharBoundary text.now start }
    requires end_cut { IsCharBoundary text.now end }
    ensures leads { (frames : List Frame)
        → Leads text.now result
        (step_at text.now
        (end_text frames start (reading (take (end - start) (drop start text.now)))) behind)
        (λ left tokens. step_on text.now (end_operand frames (view.operand_of left)) tokens) }
    ensures behind { IfOk result (λ found. found.1 ≡ behind) }
{
    match msb_expression::parse(alloc, &text[start..end]) {
        Ok(expr) => Ok((Operand::Text(expr), behind)),
        Err(fault) => Err(inside(start, fault)),
    }
}

/// The refusal of a text that begins at `start` and has no quote at its end: its own, or the
/// condition ends too early.
fn unended_fault(alloc: Global, text: &str, start: usize) -> CondFault
    requires { IsCharBoundary text.now start }
    ensures { (at : ℕ)
        → IsRefused result
        (step_at text.now
        (end_unended start (length text.now - start) (reading (drop start text.now))) at) }
{
    match msb_expression::parse(alloc, &text[start..]) {
        Ok(_) => syntax(text.len()),
        Err(fault) => inside(start, fault),
    }
}

/// The fault of an expression that begins at `start`.
fn inside(start: usize, fault: ExprFault) -> CondFault
    requires { IsPlaced (λ place. start + place < 2 ^ 64) fault }
    ensures { IsMoved start fault result }
{
    match fault {
        ExprFault::Memory => CondFault::Memory,
        _ => CondFault::Expand(ExpandFault::Expr(move_fault(start as u64, fault))),
    }
}

/// A fault with its place counted from where the expression begins.
fn move_fault(start: u64, fault: ExprFault) -> ExprFault
    requires { IsPlaced (λ place. start + place < 2 ^ 64) fault }
    ensures { result ≡ moved start fault }
{
    match fault {
        ExprFault::Unclosed(place) => ExprFault::Unclosed(start + place),
        ExprFault::BadName(place) => ExprFault::BadName(start + place),
        ExprFault::BadTransform(place) => ExprFault::BadTransform(start + place),
        ExprFault::NestedTransform(place) => ExprFault::NestedTransform(start + place),
        ExprFault::Memory => ExprFault::Memory,
    }
}

/// The operand that begins with a word: the word itself, or the function of this name where a `(`
/// follows.
#[cycle(operand)]
fn word(alloc: Global, text: &str, token: Token, room: u64) -> Result<(Operand, usize), CondFault>
    requires kind { token.kind ≡ kind.Word }
    requires within { token.end ≤ length text.now }
    requires cut { IsCut text.now token }
    ensures leads { (frames : List Frame) → HasRoom frames room
        → Leads text.now result
        (step_at text.now (word_step frames token.start (bytes_in text.now token)) token.end)
        (λ left tokens. step_on text.now (end_operand frames (view.operand_of left)) tokens) }
    ensures after { IfOk result (λ found. token.end ≤ found.1) }
    ensures within { IfOk result (λ found. found.1 ≤ length text.now) }
{
    let word = &text[token.start..token.end];
    if is_and(word) || is_or(word) {
        return Err(syntax(token.end));
    }
    match function_of(word) {
        Some(function) => function_at(alloc, text, token, function, room),
        None => plain(alloc, word, token.end),
    }
}

/// A word that is an operand, and ends at `end`.
fn plain(alloc: Global, word: &str, end: usize) -> Result<(Operand, usize), CondFault>
    ensures word { IfOk result (λ found. view.operand_of found.0 ≡ of_parts (Plain word.now ∷ [])) }
    ensures end { IfOk result (λ found. found.1 ≡ end) }
    ensures memory { IfErr result (λ fault. fault ≡ Memory) }
{
    let mut parts = Parts::new(alloc);
    parts.push(Part::Plain(Word::of(alloc, word)?))?;
    Ok((Operand::Text(Expr { parts }), end))
}

/// The operand that begins with the name of a function.
#[cycle(operand)]
fn function_at(
    alloc: Global,
    text: &str,
    token: Token,
    function: Function,
    room: u64,
) -> Result<(Operand, usize), CondFault>
    requires kind { token.kind ≡ kind.Word }
    requires within { token.end ≤ length text.now }
    requires cut { IsCut text.now token }
    ensures leads { (frames : List Frame) → HasRoom frames room
        → Leads text.now result
        (run_at text.now token.end frames (named function (bytes_in text.now token)))
        (λ left tokens. step_on text.now (end_operand frames (view.operand_of left)) tokens) }
    ensures after { IfOk result (λ found. token.end ≤ found.1) }
    ensures within { IfOk result (λ found. found.1 ≤ length text.now) }
{
    match opening_at(text, token.end) {
        Some(opening) => call(alloc, text, function, opening, room),
        None => plain(alloc, &text[token.start..token.end], token.end),
    }
}

/// The `(` behind `at`, if one stands there.
fn opening_at(text: &str, at: usize) -> Option<Token>
    requires { at ≤ length text.now }
    ensures none { IfNone result (starts_open (tokens_at at text.now) ≡ false) }
    ensures some { IfSome result (λ opening. IsOpenAt text.now at opening.start opening.end) }
{
    match token_at(text, at) {
        Some(token) => match token.kind {
            Kind::Open => Some(token),
            _ => None,
        },
        None => None,
    }
}

/// The call of a function, with its operand behind the `(`.
#[cycle(operand)]
fn call(
    alloc: Global,
    text: &str,
    function: Function,
    opening: Token,
    room: u64,
) -> Result<(Operand, usize), CondFault>
    requires order { opening.start < opening.end }
    requires within { opening.end ≤ length text.now }
    ensures leads { (frames : List Frame) → HasRoom frames room
        → Leads text.now result
        (step_at text.now (nested frames (call_of function) opening.start) opening.end)
        (λ left tokens. step_on text.now (end_operand frames (view.operand_of left)) tokens) }
    ensures after { IfOk result (λ found. opening.end ≤ found.1) }
    ensures within { IfOk result (λ found. found.1 ≤ length text.now) }
{
    if room == 0 {
        return Err(syntax(opening.start));
    }
    let (inner, end) = operand(alloc, text, opening.end, room - 1)?;
    let end = closing_end(text, end)?;
    Ok((Operand::Call(function, Box::new(alloc, inner)?), end))
}

/// Where the `)` behind `at` ends.
fn closing_end(text: &str, at: usize) -> Result<usize, CondFault>
    requires { at ≤ length text.now }
    ensures goes { (frames : List Frame) (function : Function) (inner : trees.Operand)
        → GoesOn text.now result (run_at text.now at (call_of function ∷ frames) (operand inner))
        (λ tokens. step_on text.now (end_operand frames (call function inner)) tokens) }
    ensures after { IfOk result (λ end. at ≤ end) }
    ensures within { IfOk result (λ end. end ≤ length text.now) }
{
    match token_at(text, at) {
        Some(
            Token {
                kind: Kind::Close,
                end,
                ..
            },
        ) => Ok(end),
        Some(token) => Err(syntax(token.start)),
        None => Err(syntax(text.len())),
    }
}
