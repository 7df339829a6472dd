ghost use Rattle.std.specs.Prelude.{◌≡◌, ℕ, ◌<◌, ◌≤◌, List, [], ◌∷◌, ◌++◌, IfOk, length, drop};
ghost use Rattle.std.specs.Str.{IsCharBoundary};
ghost use Rattle.msb_expression.specs.Machine as machine;
ghost use Rattle.msb_expression.specs.Machine.{
  Heads,
  Mode,
  run,
  first_sort,
  in_text,
  inner,
  whole,
  unmarked,
  type_opened,
  stepping,
  dashed,
  arrow,
  args_opened,
  in_argument,
  with_step,
  with_steps,
  closed,
  stepping_kind,
};
ghost use Rattle.msb_expression.specs.declared.expression.Part.{Part};
ghost use Rattle.msb_expression.specs.declared.expression.Step.TheVariants.{Call};
ghost use Rattle.msb_expression.specs.declared.sorts.Sort.TheVariants as sort;
ghost use Rattle.msb_expression.specs.Answers.{Leads, GoesOn, Wants};

use crate::names::{name_at, spaces_end, type_name};
use crate::pieces::pieces;
use crate::sorts::{Kind, Sort, refusal, sort_at};
use crate::starts::Inside;
use crate::{Args, ExprFault, Part, Pieces, Step, Steps};
use std::alloc::Global;

/// The item reference whose `@(` ends at `at`, and what comes behind it.
pub(crate) fn items(alloc: Global, text: &str, at: usize) -> Result<(Part, usize), ExprFault>
    requires { at ≤ length text.now }
    ensures leads { (parts : List Part)
        → Leads text.now result (run (drop at text.now) (type_opened parts))
        (λ part rest. run rest (in_text (whole (parts ++ part ∷ [])) [] unmarked)) }
    ensures after { IfOk result (λ found. at < found.1) }
    ensures within { IfOk result (λ found. found.1 ≤ length text.now) }
    ensures cut { IfOk result (λ found. IsCharBoundary text.now found.1) }
{
    let (kind, end) = type_name(alloc, text, at)?;
    let (steps, end) = steps(alloc, text, end)?;
    let (separator, end) = separator(alloc, text, end, bad_kind(&steps))?;
    Ok((Part::Items(kind, steps, separator), end))
}

/// What is wrong where a byte can't stand behind these steps.
fn bad_kind(steps: &Steps) -> Kind
    ensures { result ≡ stepping_kind steps.now }
{
    if steps.is_empty() {
        Kind::Name
    } else {
        Kind::Transform
    }
}

/// The steps at `at`, and what comes behind the spaces after them.
fn steps(alloc: Global, text: &str, at: usize) -> Result<(Steps, usize), ExprFault>
    requires { at ≤ length text.now }
    ensures leads { (heads : Heads)
        → Leads text.now result (run (drop at text.now) (stepping heads))
        (λ steps rest. run rest (stepping (with_steps heads steps))) }
    ensures after { IfOk result (λ found. at ≤ found.1) }
    ensures within { IfOk result (λ found. found.1 ≤ length text.now) }
    ensures no_space { IfOk result (λ found. first_sort (drop found.1 text.now) ≡ sort.Space → ⊥) }
    ensures no_dash { IfOk result (λ found. first_sort (drop found.1 text.now) ≡ sort.Dash → ⊥) }
{
    let mut steps = Steps::new(alloc);
    let mut next = spaces_end(text, at);
    while let Sort::Dash = sort_at(text, next) {
        let (step, end) = step(alloc, text, next + 1)?;
        steps.push(step)?;
        next = spaces_end(text, end);
    }
    Ok((steps, next))
}

/// The step whose `-` ends at `at`, and what comes behind it.
fn step(alloc: Global, text: &str, at: usize) -> Result<(Step, usize), ExprFault>
    requires { at ≤ length text.now }
    ensures leads { (heads : Heads) → Leads text.now result (run (drop at text.now) (dashed heads))
        (λ step rest. run rest (stepping (with_step heads step))) }
    ensures after { IfOk result (λ found. at < found.1) }
    ensures within { IfOk result (λ found. found.1 ≤ length text.now) }
{
    match sort_at(text, at) {
        Sort::Greater => act(alloc, text, at + 1),
        _ => Err(refusal(text, at, Kind::Transform)),
    }
}

/// The transform or call at `at`, and what comes behind it.
fn act(alloc: Global, text: &str, at: usize) -> Result<(Step, usize), ExprFault>
    requires { at ≤ length text.now }
    ensures leads { (heads : Heads) → Leads text.now result (run (drop at text.now) (arrow heads))
        (λ step rest. run rest (stepping (with_step heads step))) }
    ensures after { IfOk result (λ found. at < found.1) }
    ensures within { IfOk result (λ found. found.1 ≤ length text.now) }
{
    let start = spaces_end(text, at);
    match sort_at(text, start) {
        Sort::Quote => {
            let (pieces, end) = pieces(alloc, text, start + 1, Inside::Transform)?;
            Ok((Step::Transform(pieces), end))
        }
        Sort::Letter => call(alloc, text, start),
        _ => Err(refusal(text, start, Kind::Transform)),
    }
}

/// The call of an item function whose name begins at `at`, and what comes behind it.
fn call(alloc: Global, text: &str, at: usize) -> Result<(Step, usize), ExprFault>
    requires { first_sort (drop at text.now) ≡ sort.Letter }
    ensures leads { (heads : Heads) → Leads text.now result (run (drop at text.now) (arrow heads))
        (λ step rest. run rest (stepping (with_step heads step))) }
    ensures after { IfOk result (λ found. at < found.1) }
    ensures within { IfOk result (λ found. found.1 ≤ length text.now) }
{
    let (function, end) = name_at(alloc, text, at)?;
    let end = spaces_end(text, end);
    match sort_at(text, end) {
        Sort::Open => {
            let (args, end) = args(alloc, text, end + 1)?;
            Ok((Step::Call(function, args), end))
        }
        _ => Err(refusal(text, end, Kind::Transform)),
    }
}

/// The arguments behind the `(` that ends at `at`, and what comes behind their `)`.
fn args(alloc: Global, text: &str, at: usize) -> Result<(Args, usize), ExprFault>
    requires { at ≤ length text.now }
    ensures leads { (heads : Heads) (function : List ℕ)
        → Leads text.now result (run (drop at text.now) (args_opened heads function))
        (λ args rest. run rest (stepping (with_step heads (Call function args)))) }
    ensures after { IfOk result (λ found. at < found.1) }
    ensures within { IfOk result (λ found. found.1 ≤ length text.now) }
{
    let start = spaces_end(text, at);
    match sort_at(text, start) {
        Sort::Close => Ok((Args::new(alloc), start + 1)),
        Sort::Quote => some_args(alloc, text, start + 1),
        _ => Err(refusal(text, start, Kind::Transform)),
    }
}

/// One or more arguments from behind the first quote on, and what comes behind their `)`.
fn some_args(alloc: Global, text: &str, at: usize) -> Result<(Args, usize), ExprFault>
    requires within { at ≤ length text.now }
    requires cut { IsCharBoundary text.now at }
    ensures leads { (heads : Heads) (function : List ℕ)
        → Leads text.now result
        (run (drop at text.now) (in_text (inner (in_argument heads function []) []) [] unmarked))
        (λ args rest. run rest (stepping (with_step heads (Call function args)))) }
    ensures after { IfOk result (λ found. at < found.1) }
    ensures within { IfOk result (λ found. found.1 ≤ length text.now) }
{
    let mut args = Args::new(alloc);
    let mut next = at;
    loop {
        let (arg, end) = pieces(alloc, text, next, Inside::Quoted)?;
        args.push(arg)?;
        let end = spaces_end(text, end);
        match sort_at(text, end) {
            Sort::Close => return Ok((args, end + 1)),
            Sort::Comma => next = quote_end(text, end + 1)?,
            _ => return Err(refusal(text, end, Kind::Transform)),
        }
    }
}

/// The separator at `at`, if there is one, and what comes behind the `)` after it.
fn separator(
    alloc: Global,
    text: &str,
    at: usize,
    kind: Kind,
) -> Result<(Option<Pieces>, usize), ExprFault>
    requires within { at ≤ length text.now }
    requires no_space { first_sort (drop at text.now) ≡ sort.Space → ⊥ }
    requires no_dash { first_sort (drop at text.now) ≡ sort.Dash → ⊥ }
    ensures leads { (heads : Heads) → stepping_kind heads.steps ≡ kind
        → Leads text.now result (run (drop at text.now) (stepping heads))
        (λ separator rest. run rest (closed heads separator)) }
    ensures after { IfOk result (λ found. at < found.1) }
    ensures within { IfOk result (λ found. found.1 ≤ length text.now) }
    ensures cut { IfOk result (λ found. IsCharBoundary text.now found.1) }
{
    match sort_at(text, at) {
        Sort::Close => Ok((None, at + 1)),
        Sort::Comma => {
            let start = quote_end(text, at + 1)?;
            let (separator, end) = pieces(alloc, text, start, Inside::Quoted)?;
            Ok((Some(separator), close_end(text, end)?))
        }
        _ => Err(refusal(text, at, kind)),
    }
}

/// What comes behind the spaces at `at` and a quote.
fn quote_end(text: &str, at: usize) -> Result<usize, ExprFault>
    requires { at ≤ length text.now }
    ensures goes { (mode next : Mode) → Wants sort.Quote mode next
        → GoesOn text.now result (run (drop at text.now) mode) next }
    ensures after { IfOk result (λ end. at < end) }
    ensures within { IfOk result (λ end. end ≤ length text.now) }
    ensures cut { IfOk result (λ end. IsCharBoundary text.now end) }
{
    let end = spaces_end(text, at);
    match sort_at(text, end) {
        Sort::Quote => Ok(end + 1),
        _ => Err(refusal(text, end, Kind::Transform)),
    }
}

/// What comes behind the spaces at `at` and a `)`.
fn close_end(text: &str, at: usize) -> Result<usize, ExprFault>
    requires { at ≤ length text.now }
    ensures goes { (mode next : Mode) → Wants sort.Close mode next
        → GoesOn text.now result (run (drop at text.now) mode) next }
    ensures after { IfOk result (λ end. at < end) }
    ensures within { IfOk result (λ end. end ≤ length text.now) }
    ensures cut { IfOk result (λ end. IsCharBoundary text.now end) }
{
    let end = spaces_end(text, at);
    match sort_at(text, end) {
        Sort::Close => Ok(end + 1),
        _ => Err(refusal(text, end, Kind::Transform)),
    }
}
