ghost use Rattle.std.specs.Prelude.{◌≡◌, ◌<◌, ◌≤◌, false, List, [], ◌∷◌, ◌++◌, IfOk, length, drop};
ghost use Rattle.std.specs.Str.{IsCharBoundary};
ghost use Rattle.msb_expression.specs.Machine.{
  Host,
  Named,
  run,
  name_opened,
  in_text,
  whole,
  inner,
  property,
  metadata,
  qualified,
  unmarked,
  referred,
  Place,
};
ghost use Rattle.msb_expression.specs.declared.expression.Part.{Part};
ghost use Rattle.msb_expression.specs.declared.expression.Piece.{Piece};
ghost use Rattle.msb_expression.specs.Answers.{Leads, TakesNoDot};

use crate::names::{name, spaces_end};
use crate::sorts::{Kind, Sort, refusal, sort_at};
use crate::{ExprFault, Part, Word};
use std::alloc::Global;

/// The name at `at` and its `)`, and what comes behind them.
pub(crate) fn closed_name(alloc: Global, text: &str, at: usize) -> Result<(Word, usize), ExprFault>
    requires { at ≤ length text.now }
    ensures leads { (host : Host) (which : Named) → TakesNoDot host which
        → Leads text.now result (run (drop at text.now) (name_opened host which))
        (λ name rest. run rest (in_text (referred host which name) [] unmarked)) }
    ensures after { IfOk result (λ found. at < found.1) }
    ensures within { IfOk result (λ found. found.1 ≤ length text.now) }
    ensures cut { IfOk result (λ found. IsCharBoundary text.now found.1) }
{
    let (name, end) = name(alloc, text, at)?;
    let end = spaces_end(text, end);
    match sort_at(text, end) {
        Sort::Close => Ok((name, end + 1)),
        _ => Err(refusal(text, end, Kind::Name)),
    }
}

/// The `Name)` of a `%(` in a transform, and what comes behind it.
pub(crate) fn own_metadata(alloc: Global, text: &str, at: usize) -> Result<(Word, usize), ExprFault>
    requires { at ≤ length text.now }
    ensures leads { (place : Place) (pieces : List Piece)
        → Leads text.now result (run (drop at text.now) (name_opened (inner place pieces) metadata))
        (λ name rest.
        run rest (in_text (referred (inner place pieces) metadata name) [] unmarked)) }
    ensures after { IfOk result (λ found. at < found.1) }
    ensures within { IfOk result (λ found. found.1 ≤ length text.now) }
    ensures cut { IfOk result (λ found. IsCharBoundary text.now found.1) }
{
    let (name, end) = name(alloc, text, at)?;
    let end = spaces_end(text, end);
    match sort_at(text, end) {
        Sort::Close => Ok((name, end + 1)),
        Sort::Dot => Err(refusal(text, end, Kind::Transform)),
        _ => Err(refusal(text, end, Kind::Name)),
    }
}

/// The `Name)` or `Type.Name)` of a `%(`, and what comes behind it.
pub(crate) fn any_metadata(alloc: Global, text: &str, at: usize) -> Result<(Part, usize), ExprFault>
    requires { at ≤ length text.now }
    ensures leads { (parts : List Part)
        → Leads text.now result (run (drop at text.now) (name_opened (whole parts) metadata))
        (λ part rest. run rest (in_text (whole (parts ++ part ∷ [])) [] unmarked)) }
    ensures after { IfOk result (λ found. at < found.1) }
    ensures within { IfOk result (λ found. found.1 ≤ length text.now) }
    ensures cut { IfOk result (λ found. IsCharBoundary text.now found.1) }
{
    let (first, end) = name(alloc, text, at)?;
    let end = spaces_end(text, end);
    match sort_at(text, end) {
        Sort::Close => Ok((Part::Meta(None, first), end + 1)),
        Sort::Dot => qualified_metadata(alloc, text, first, end + 1),
        _ => Err(refusal(text, end, Kind::Name)),
    }
}

/// The `Name)` behind the `.` of a `%(Type.`, and what comes behind it.
fn qualified_metadata(
    alloc: Global,
    text: &str,
    kind: Word,
    at: usize,
) -> Result<(Part, usize), ExprFault>
    requires { at ≤ length text.now }
    ensures leads { (parts : List Part)
        → Leads text.now result
        (run (drop at text.now) (name_opened (whole parts) (qualified kind)))
        (λ part rest. run rest (in_text (whole (parts ++ part ∷ [])) [] unmarked)) }
    ensures after { IfOk result (λ found. at < found.1) }
    ensures within { IfOk result (λ found. found.1 ≤ length text.now) }
    ensures cut { IfOk result (λ found. IsCharBoundary text.now found.1) }
{
    let (name, end) = closed_name(alloc, text, at)?;
    Ok((Part::Meta(Some(kind), name), end))
}
