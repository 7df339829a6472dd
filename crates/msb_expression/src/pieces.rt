ghost use Rattle.std.specs.Prelude.{◌≡◌, ◌<◌, ◌≤◌, List, [], ◌∷◌, ◌++◌, IfOk, length, drop};
ghost use Rattle.std.specs.Str.{IsCharBoundary};
ghost use Rattle.msb_expression.specs.Machine.{
  Place,
  run,
  in_text,
  inner,
  unmarked,
  left,
  place_inside,
  start_of,
};
ghost use Rattle.msb_expression.specs.declared.expression.Piece.{Piece};
ghost use Rattle.msb_expression.specs.declared.starts.Inside.TheVariants.{Whole, Loose};
ghost use Rattle.msb_expression.specs.declared.starts.Start.TheVariants.{Quote, Stop};
ghost use Rattle.msb_expression.specs.Answers.{Leads};

use crate::names::piece_of;
use crate::references::{closed_name, own_metadata};
use crate::sorts::{Kind, refusal};
use crate::starts::{Inside, Start, plain_end, start_at};
use crate::{ExprFault, Piece, Pieces};
use std::alloc::Global;

/// The text between quotes from `at` on, and what comes behind the closing quote.
pub(crate) fn pieces(
    alloc: Global,
    text: &str,
    at: usize,
    inside: Inside,
) -> Result<(Pieces, usize), ExprFault>
    requires within { at ≤ length text.now }
    requires cut { IsCharBoundary text.now at }
    requires not_whole { inside ≡ Whole → ⊥ }
    requires not_loose { inside ≡ Loose → ⊥ }
    ensures leads { (place : Place) → place_inside place ≡ inside
        → Leads text.now result (run (drop at text.now) (in_text (inner place []) [] unmarked))
        (λ pieces rest. run rest (left place pieces)) }
    ensures after { IfOk result (λ found. at < found.1) }
    ensures within { IfOk result (λ found. found.1 ≤ length text.now) }
{
    let mut pieces = Pieces::new(alloc);
    let mut next = at;
    loop {
        match start_at(text, next, inside) {
            Start::Quote => return Ok((pieces, next + 1)),
            _ => {
                let (piece, end) = piece(alloc, text, next, inside)?;
                pieces.push(piece)?;
                next = end;
            }
        }
    }
}

/// The piece at `at`, where no quote stands, and what comes behind it.
pub(crate) fn piece(
    alloc: Global,
    text: &str,
    at: usize,
    inside: Inside,
) -> Result<(Piece, usize), ExprFault>
    requires within { at ≤ length text.now }
    requires cut { IsCharBoundary text.now at }
    requires not_whole { inside ≡ Whole → ⊥ }
    requires no_quote { start_of inside (drop at text.now) ≡ Quote → ⊥ }
    requires no_stop { start_of inside (drop at text.now) ≡ Stop → ⊥ }
    ensures leads { (place : Place) (pieces : List Piece) → place_inside place ≡ inside
        → Leads text.now result (run (drop at text.now) (in_text (inner place pieces) [] unmarked))
        (λ piece rest. run rest (in_text (inner place (pieces ++ piece ∷ [])) [] unmarked)) }
    ensures after { IfOk result (λ found. at < found.1) }
    ensures within { IfOk result (λ found. found.1 ≤ length text.now) }
    ensures cut { IfOk result (λ found. IsCharBoundary text.now found.1) }
{
    match start_at(text, at, inside) {
        Start::End => Err(ExprFault::Unclosed(text.len() as u64)),
        Start::Quote => unreachable!(),
        Start::Stop => unreachable!(),
        Start::Bad => Err(refusal(text, at, Kind::Name)),
        Start::Property => {
            let (name, end) = closed_name(alloc, text, at + 2)?;
            Ok((Piece::Prop(name), end))
        }
        Start::Metadata => {
            let (name, end) = own_metadata(alloc, text, at + 2)?;
            Ok((Piece::Meta(name), end))
        }
        Start::Items => Err(refusal(text, at + 1, Kind::Nested)),
        Start::Plain => {
            let end = plain_end(text, at, inside);
            Ok((Piece::Plain(piece_of(alloc, text, at, end)?), end))
        }
    }
}
