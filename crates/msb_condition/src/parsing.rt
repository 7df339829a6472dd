ghost use Rattle.std.specs.Prelude.{◌≡◌, IfOk, MatchResult};
ghost use Rattle.msb_condition.specs.Grammar.{IsCondition};
ghost use Rattle.msb_condition.specs.Reading.{IsRead, condition_of};
ghost use Rattle.msb_condition.specs.Trees.{Tree};
ghost use Rattle.msb_condition.specs.View.{tree_of};
ghost use Rattle.msb_condition.specs.declared.faults.CondFault.TheVariants.{Memory};

use crate::groups::{or, stray};
use crate::tokens::token_at;
use crate::{Cond, CondFault};
use std::alloc::Global;

/// Reads a condition. (MSBuild conditions.)
///
/// Words and functions are without case, and a word goes as far as it can. A condition nests at
/// most 64 `!` and `(`. A text that has no reading is refused as [`CondFault::Syntax`] at the first
/// byte such that no text that begins with all bytes through it has one, or at its length; or,
/// where that comes no later, by the fault of an expression in it.
pub fn parse(alloc: Global, text: &str) -> Result<Cond, CondFault>
    // What is read is a reading, and the only one.
    ensures found { IfOk result (λ cond. IsCondition text.now (tree_of cond)) }
    ensures only { (tree : Tree) → IsCondition text.now tree
        → MatchResult result (λ cond. tree_of cond ≡ tree) (λ fault. fault ≡ Memory) }

    // The answer is a function of the text.
    ensures read { IsRead result (condition_of text.now) }
{
    read(alloc, text)
}

fn read(alloc: Global, text: &str) -> Result<Cond, CondFault>
    ensures { IsRead result (condition_of text.now) }
{
    let Some(_) = token_at(text, 0) else {
        return Ok(Cond::Empty);
    };
    let (cond, end) = or(alloc, text, 0, 64)?;
    match token_at(text, end) {
        Some(token) => Err(stray(text, token)),
        None => Ok(cond),
    }
}
