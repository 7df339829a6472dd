ghost use Rattle.std.specs.Prelude.{
  ◌≡◌,
  ℕ,
  ◌-◌,
  ◌<◌,
  ◌≤◌,
  true,
  false,
  List,
  [],
  ◌∷◌,
  ◌++◌,
  None,
  Some,
  IfOk,
  IfErr,
  length,
  take,
  drop,
};
ghost use Rattle.msb_expression.specs.Grammar.{IsSpaces};
ghost use Rattle.std.specs.Str.{IsCharBoundary};
ghost use Rattle.msb_expression.specs.Machine.{
  run,
  first_sort,
  begins_lower,
  ends_argument,
  in_text,
  whole,
  unmarked,
  name_opened,
  property,
  CallHeads,
  Arguments,
  property_opened,
  call_wanted,
  called,
  call_arg_wanted,
  call_arg_ended,
  calls_closed,
  call_heads,
  arguments_of,
  property_call,
  with_call,
  with_calls,
  with_arg,
  may_be_plain,
  is_behind_spaces,
  IsArgWanted,
};
ghost use Rattle.msb_expression.specs.declared.expression.Part.{Part};
ghost use Rattle.msb_expression.specs.declared.faults.ExprFault.TheVariants.{Memory};
ghost use Rattle.msb_expression.specs.declared.sorts.Sort.TheVariants as sort;
ghost use Rattle.msb_expression.specs.Answers.{Leads, GoesOn};

use crate::loose::loose;
use crate::names::{name, spaces_end};
use crate::pieces::pieces;
use crate::sorts::{Kind, Sort, refusal, sort_at};
use crate::starts::Inside;
use crate::{Args, Call, Calls, ExprFault, Part, Pieces, Word};
use std::alloc::Global;

/// The property reference whose `$(` ends at `at`, with the calls behind its name, and what comes
/// behind it.
pub(crate) fn property(alloc: Global, text: &str, at: usize) -> Result<(Part, usize), ExprFault>
    requires { at ≤ length text.now }
    ensures leads { (parts : List Part)
        → Leads text.now result (run (drop at text.now) (property_opened parts))
        (λ part rest. run rest (in_text (whole (parts ++ part ∷ [])) [] unmarked)) }
    ensures after { IfOk result (λ found. at < found.1) }
    ensures within { IfOk result (λ found. found.1 ≤ length text.now) }
    ensures cut { IfOk result (λ found. IsCharBoundary text.now found.1) }
{
    match sort_at(text, at) {
        Sort::Bracket => build_calls(alloc, text, at),
        _ => named_property(alloc, text, at),
    }
}

/// The property whose name stands at `at`, with the calls behind it, and what comes behind its `)`.
fn named_property(alloc: Global, text: &str, at: usize) -> Result<(Part, usize), ExprFault>
    requires { at ≤ length text.now }
    ensures leads { (parts : List Part)
        → Leads text.now result (run (drop at text.now) (name_opened (whole parts) property))
        (λ part rest. run rest (in_text (whole (parts ++ part ∷ [])) [] unmarked)) }
    ensures after { IfOk result (λ found. at < found.1) }
    ensures within { IfOk result (λ found. found.1 ≤ length text.now) }
    ensures cut { IfOk result (λ found. IsCharBoundary text.now found.1) }
{
    let (name, end) = name(alloc, text, at)?;
    let end = spaces_end(text, end);
    match sort_at(text, end) {
        Sort::Close => Ok((Part::Prop(name), end + 1)),
        Sort::Dot => {
            let (calls, end) = closed_calls(alloc, text, Calls::new(alloc), end)?;
            Ok((Part::Func(Some(name), calls), end))
        }
        _ => Err(refusal(text, end, Kind::Name)),
    }
}

/// The calls behind a `[MSBuild]::` that begins at `at`, and what comes behind their `)`.
fn build_calls(alloc: Global, text: &str, at: usize) -> Result<(Part, usize), ExprFault>
    requires { first_sort (drop at text.now) ≡ sort.Bracket }
    ensures leads { (parts : List Part)
        → Leads text.now result (run (drop at text.now) (property_opened parts))
        (λ part rest. run rest (in_text (whole (parts ++ part ∷ [])) [] unmarked)) }
    ensures after { IfOk result (λ found. at < found.1) }
    ensures within { IfOk result (λ found. found.1 ≤ length text.now) }
    ensures cut { IfOk result (λ found. IsCharBoundary text.now found.1) }
{
    let end = build_end(text, at)?;
    let (first, end) = first_call(alloc, text, end)?;
    let (calls, end) = closed_calls(alloc, text, first, end)?;
    Ok((Part::Func(None, calls), end))
}

/// The first call behind `::`, which has parentheses, as a list, and what comes behind it.
fn first_call(alloc: Global, text: &str, at: usize) -> Result<(Calls, usize), ExprFault>
    requires { at ≤ length text.now }
    ensures leads { (parts : List Part) → Leads text.now result
        (run (drop at text.now) (call_wanted (call_heads parts None)))
        (λ calls rest. run rest (called (with_calls (call_heads parts None) calls))) }
    ensures plain { IfOk result (λ found. (parts : List Part)
        → may_be_plain (with_calls (call_heads parts None) found.0) ≡ true) }
    ensures after { IfOk result (λ found. at < found.1) }
    ensures within { IfOk result (λ found. found.1 ≤ length text.now) }
{
    let (name, end) = name(alloc, text, at)?;
    let end = spaces_end(text, end);
    match sort_at(text, end) {
        Sort::Open => {
            let (args, end) = args(alloc, text, end + 1)?;
            Ok((one(alloc, name, args)?, end))
        }
        _ => Err(refusal(text, end, Kind::Name)),
    }
}

/// A list of one call.
fn one(alloc: Global, name: Word, args: Args) -> Result<Calls, ExprFault>
    ensures ok { IfOk result (λ calls. calls ≡ property_call name (Some args) ∷ []) }
    ensures err { IfErr result (λ fault. fault ≡ Memory) }
{
    let mut calls = Calls::new(alloc);
    calls.push(Call {
        name,
        args: Some(args),
    })?;
    Ok(calls)
}

/// Where a `[MSBuild]::` at `at` ends, which may be in whatever case.
fn build_end(text: &str, at: usize) -> Result<usize, ExprFault>
    requires { first_sort (drop at text.now) ≡ sort.Bracket }
    ensures goes { (parts : List Part)
        → GoesOn text.now result (run (drop at text.now) (property_opened parts))
        (call_wanted (call_heads parts None)) }
    ensures after { IfOk result (λ end. at < end) }
    ensures within { IfOk result (λ end. end ≤ length text.now) }
{
    let mut end = at;
    for expected in b"[msbuild]::" {
        if is_lower_at(text, end, *expected) {
            end += 1;
        } else {
            return Err(refusal(text, end, Kind::Name));
        }
    }
    Ok(end)
}

/// Whether this letter, in whatever case, or this other byte stands at `at`.
fn is_lower_at(text: &str, at: usize, wanted: u8) -> bool
    ensures { result ≡ begins_lower wanted (drop at text.now) }
{
    let bytes = text.as_bytes();
    if at < bytes.len() {
        bytes[at].to_ascii_lowercase() == wanted
    } else {
        false
    }
}

/// The calls so far with those at `at`, and what comes behind the `)` after them.
fn closed_calls(
    alloc: Global,
    text: &str,
    calls: Calls,
    at: usize,
) -> Result<(Calls, usize), ExprFault>
    requires { at ≤ length text.now }
    ensures leads { (heads : CallHeads) → may_be_plain (with_calls heads calls) ≡ true
        → Leads text.now result
        (run (drop at text.now) (called (with_calls heads calls)))
        (λ all rest. run rest (calls_closed (with_calls heads all))) }
    ensures after { IfOk result (λ found. at < found.1) }
    ensures within { IfOk result (λ found. found.1 ≤ length text.now) }
    ensures cut { IfOk result (λ found. IsCharBoundary text.now found.1) }
{
    let (calls, end) = all_calls(alloc, text, calls, at)?;
    match sort_at(text, end) {
        Sort::Close => Ok((calls, end + 1)),
        _ => Err(refusal(text, end, Kind::Name)),
    }
}

/// The calls so far with those at `at`, each behind a `.`, and what comes behind the spaces after
/// them.
fn all_calls(
    alloc: Global,
    text: &str,
    mut calls: Calls,
    at: usize,
) -> Result<(Calls, usize), ExprFault>
    requires { at ≤ length text.now }
    ensures leads { (heads : CallHeads) → may_be_plain (with_calls heads calls) ≡ true
        → Leads text.now result
        (run (drop at text.now) (called (with_calls heads calls)))
        (λ all rest. run rest (called (with_calls heads all))) }
    ensures after { IfOk result (λ found. at ≤ found.1) }
    ensures within { IfOk result (λ found. found.1 ≤ length text.now) }
    ensures no_space { IfOk result (λ found. first_sort (drop found.1 text.now) ≡ sort.Space → ⊥) }
    ensures no_dot { IfOk result (λ found. first_sort (drop found.1 text.now) ≡ sort.Dot → ⊥) }
{
    let mut next = spaces_end(text, at);
    while let Sort::Dot = sort_at(text, next) {
        let (call, end) = call(alloc, text, next + 1)?;
        calls.push(call)?;
        next = spaces_end(text, end);
    }
    Ok((calls, next))
}

/// The call behind the `.` that ends at `at`, and what comes behind it.
fn call(alloc: Global, text: &str, at: usize) -> Result<(Call, usize), ExprFault>
    requires { at ≤ length text.now }
    ensures leads { (heads : CallHeads) → may_be_plain heads ≡ true → Leads text.now result
        (run (drop at text.now) (call_wanted heads))
        (λ call rest. run rest (called (with_call heads call))) }
    ensures after { IfOk result (λ found. at < found.1) }
    ensures within { IfOk result (λ found. found.1 ≤ length text.now) }
{
    let (name, end) = name(alloc, text, at)?;
    let end = spaces_end(text, end);
    match sort_at(text, end) {
        Sort::Open => {
            let (args, end) = args(alloc, text, end + 1)?;
            Ok((
                Call {
                    name,
                    args: Some(args),
                },
                end,
            ))
        }
        _ => Ok((Call { name, args: None }, end)),
    }
}

/// The arguments behind the `(` that ends at `at`, and what comes behind their `)`; spaces alone
/// are none.
fn args(alloc: Global, text: &str, at: usize) -> Result<(Args, usize), ExprFault>
    requires within { at ≤ length text.now }
    requires cut { IsCharBoundary text.now at }
    ensures leads { (heads : CallHeads) (function : List ℕ) → Leads text.now result
        (run (drop at text.now) (call_arg_wanted (arguments_of heads function) false))
        (λ args rest. run rest (called (with_call heads (property_call function (Some args))))) }
    ensures after { IfOk result (λ found. at < found.1) }
    ensures within { IfOk result (λ found. found.1 ≤ length text.now) }
{
    let end = spaces_end(text, at);
    match sort_at(text, end) {
        Sort::Close => Ok((Args::new(alloc), end + 1)),
        _ => some_args(alloc, text, at),
    }
}

/// One or more arguments from `at` on, and what comes behind their `)`.
fn some_args(alloc: Global, text: &str, at: usize) -> Result<(Args, usize), ExprFault>
    requires within { at ≤ length text.now }
    requires cut { IsCharBoundary text.now at }
    requires some { is_behind_spaces 41 (drop at text.now) ≡ false }
    ensures leads { (heads : CallHeads) (function : List ℕ) → Leads text.now result
        (run (drop at text.now) (call_arg_wanted (arguments_of heads function) false))
        (λ args rest. run rest (called (with_call heads (property_call function (Some args))))) }
    ensures after { IfOk result (λ found. at < found.1) }
    ensures within { IfOk result (λ found. found.1 ≤ length text.now) }
{
    let mut args = Args::new(alloc);
    let mut next = at;
    loop {
        let (arg, end) = arg(alloc, text, next)?;
        args.push(arg)?;
        match sort_at(text, end) {
            Sort::Comma => next = end + 1,
            Sort::Close => return Ok((args, end + 1)),
            _ => return Err(refusal(text, end, Kind::Name)),
        }
    }
}

/// The argument at `at`, and what comes behind it and the spaces around its quotes.
fn arg(alloc: Global, text: &str, at: usize) -> Result<(Pieces, usize), ExprFault>
    requires within { at ≤ length text.now }
    requires cut { IsCharBoundary text.now at }
    ensures leads { (a : Arguments) → IsArgWanted a (drop at text.now) → Leads text.now result
        (run (drop at text.now) (call_arg_wanted a false))
        (λ pieces rest. run rest (call_arg_ended (with_arg a pieces))) }
    ensures after { IfOk result (λ found. at < found.1) }
    ensures within { IfOk result (λ found. found.1 ≤ length text.now) }
    ensures no_space { IfOk result (λ found. first_sort (drop found.1 text.now) ≡ sort.Space → ⊥) }
{
    let start = spaces_end(text, at);
    match sort_at(text, start) {
        Sort::Quote => {
            let (pieces, end) = pieces(alloc, text, start + 1, Inside::Quoted)?;
            Ok((pieces, spaces_end(text, end)))
        }
        _ => unquoted_argument(alloc, text, at, start),
    }
}

/// The argument without quotes whose spaces begin at `at` and end at `start`, and where it ends.
fn unquoted_argument(
    alloc: Global,
    text: &str,
    at: usize,
    start: usize,
) -> Result<(Pieces, usize), ExprFault>
    requires order { at ≤ start }
    requires within { start ≤ length text.now }
    requires cut { IsCharBoundary text.now at }
    requires spaces { IsSpaces (take (start - at) (drop at text.now)) }
    requires no_space { first_sort (drop start text.now) ≡ sort.Space → ⊥ }
    requires no_quote { first_sort (drop start text.now) ≡ sort.Quote → ⊥ }
    ensures leads { (a : Arguments) → IsArgWanted a (drop at text.now) → Leads text.now result
        (run (drop at text.now) (call_arg_wanted a false))
        (λ pieces rest. run rest (call_arg_ended (with_arg a pieces))) }
    ensures after { IfOk result (λ found. at < found.1) }
    ensures within { IfOk result (λ found. found.1 ≤ length text.now) }
    ensures no_space { IfOk result (λ found. first_sort (drop found.1 text.now) ≡ sort.Space → ⊥) }
{
    if is_missing(text, at, start) {
        return Err(refusal(text, start, Kind::Name));
    }
    loose(alloc, text, start)
}

/// Whether no argument stands at `at`, which no spaces part from `start`.
fn is_missing(text: &str, at: usize, start: usize) -> bool
    ensures some { result ≡ true
        → (at ≡ start) × (ends_argument (first_sort (drop start text.now)) ≡ true) }
    ensures none { result ≡ false → at ≡ start
        → ends_argument (first_sort (drop start text.now)) ≡ false }
{
    if at == start {
        sort_at(text, start).ends_argument()
    } else {
        false
    }
}
