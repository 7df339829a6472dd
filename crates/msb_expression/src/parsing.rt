ghost use Rattle.std.specs.Prelude.{
  ◌≡◌,
  ◌<◌,
  ◌≤◌,
  List,
  [],
  ◌∷◌,
  ◌++◌,
  ◌⊎◌,
  IfOk,
  IfErr,
  MatchResult,
  length,
  drop,
};
ghost use Rattle.std.specs.Str.{IsCharBoundary};
ghost use Rattle.msb_expression.specs.Machine.{run, in_text, whole, unmarked};
ghost use Rattle.msb_expression.specs.declared.expression.Part.{Part};
ghost use Rattle.msb_expression.specs.declared.faults.ExprFault.{ExprFault};
ghost use Rattle.msb_expression.specs.declared.faults.ExprFault.TheVariants.{Memory};
ghost use Rattle.msb_expression.specs.Grammar.{IsReading};
ghost use Rattle.msb_expression.specs.Refusals.{IsRefusal};
ghost use Rattle.msb_expression.specs.Answers.{Leads, Reads};
ghost use Rattle.msb_expression.specs.Reading.{IsRead, reading};

use crate::calls::property;
use crate::names::piece_of;
use crate::references::any_metadata;
use crate::starts::{Inside, Start, plain_end, start_at};
use crate::steps::items;
use crate::{Expr, ExprFault, Part, Parts};
use std::alloc::Global;

/// Reads a text of a project file as an expression: plain text with the references `$(Property)`,
/// `%(Metadata)` and `@(Items)` ("MSBuild properties", "Property functions", "Item metadata",
/// "MSBuild items", "MSBuild transforms" and "Item functions" in the MSBuild documentation). A
/// refusal has the place of its byte in the text.
pub fn parse(alloc: Global, text: &str) -> Result<Expr, ExprFault>
    // What is read is a reading, and the only one.
    ensures found { IfOk result (λ expr. IsReading text.now expr.parts) }
    ensures only { (parts : List Part) → IsReading text.now parts
        → MatchResult result (λ expr. expr.parts ≡ parts) (λ fault. fault ≡ Memory) }

    // The answer is a function of the text.
    ensures read { IsRead result (reading text.now) }

    // A refusal is the one that the text has, with its place.
    ensures refused { IfErr result (λ fault. IsRefusal text.now fault) }
    ensures only_refusal { (fault : ExprFault) → (fault ≡ Memory → ⊥) → IsRefusal text.now fault
        → MatchResult result (λ expr. ⊥) (λ given. (given ≡ fault) ⊎ (given ≡ Memory)) }
{
    let parts = read(alloc, text)?;
    Ok(Expr { parts })
}

/// The parts of a text.
fn read(alloc: Global, text: &str) -> Result<Parts, ExprFault>
    ensures { Reads text.now result }
{
    let mut parts = Parts::new(alloc);
    let mut next = 0;
    while next < text.len() {
        let (part, end) = part(alloc, text, next)?;
        parts.push(part)?;
        next = end;
    }
    Ok(parts)
}

/// The part at `at`, and what comes behind it.
fn part(alloc: Global, text: &str, at: usize) -> Result<(Part, usize), ExprFault>
    requires within { at < length text.now }
    requires cut { IsCharBoundary text.now at }
    ensures leads { (parts : List Part)
        → Leads text.now result (run (drop at text.now) (in_text (whole parts) [] unmarked))
        (λ part rest. run rest (in_text (whole (parts ++ part ∷ [])) [] unmarked)) }
    ensures after { IfOk result (λ found. at < found.1) }
    ensures within { IfOk result (λ found. found.1 ≤ length text.now) }
    ensures cut { IfOk result (λ found. IsCharBoundary text.now found.1) }
{
    match start_at(text, at, Inside::Whole) {
        Start::Property => property(alloc, text, at + 2),
        Start::Metadata => any_metadata(alloc, text, at + 2),
        Start::Items => items(alloc, text, at + 2),
        Start::Plain => {
            let end = plain_end(text, at, Inside::Whole);
            Ok((Part::Plain(piece_of(alloc, text, at, end)?), end))
        }
        _ => unreachable!(),
    }
}
