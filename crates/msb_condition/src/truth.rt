ghost use Rattle.std.specs.Prelude.{map};
ghost use Rattle.msb_condition.specs.Answers.{Gives, view_of};
ghost use Rattle.msb_condition.specs.Truth.{
  truth_of,
  any_truth,
  every_truth,
  operand_text as text_of,
  is_true as truth_value,
};
ghost use Rattle.msb_condition.specs.View.{tree_of, operand_of};
ghost use Rattle.msb_laws.specs.Results.{and_then};

use crate::comparing::compare;
use crate::values::operand_text;
use crate::{Cond, CondFault, Operand};
use msb_expand::Lens;
use msb_paths::Present;
use msb_values::truth_of;
use std::alloc::Global;

/// Whether a condition is true in a scope and a view of files, or its first fault from the left.
/// What comes behind the place where the truth is known is not looked at. (MSBuild conditions.)
///
/// `Exists` is true of the path of a file, or of a folder that a file lies below; its text is a
/// path on the lens's folder.
#[cycle(holds)]
pub fn holds<F: Present>(
    alloc: Global,
    lens: &Lens<'_>,
    files: &F,
    cond: &Cond,
) -> Result<bool, CondFault>
    ensures { Gives result (truth_of (view_of lens.now (F.files files.now)) (tree_of cond.now)) }
{
    match cond {
        Cond::Empty => Ok(true),
        Cond::Or(first, others) => {
            if holds(alloc, lens, files, first)? {
                return Ok(true);
            }
            any_holds(alloc, lens, files, others)
        }
        Cond::And(first, others) => {
            if !holds(alloc, lens, files, first)? {
                return Ok(false);
            }
            all_hold(alloc, lens, files, others)
        }
        Cond::Not(inner) => Ok(!holds(alloc, lens, files, inner)?),
        Cond::Compare(comparison, left, right) => {
            let left = operand_text(alloc, lens, files, left)?;
            let right = operand_text(alloc, lens, files, right)?;
            compare(*comparison, left, right)
        }
        Cond::Truth(operand) => is_true(alloc, lens, files, operand),
    }
}

/// Whether any of several conditions is true.
#[cycle(holds)]
fn any_holds<F: Present>(
    alloc: Global,
    lens: &Lens<'_>,
    files: &F,
    conds: &[Cond],
) -> Result<bool, CondFault>
    ensures { Gives result
        (any_truth (view_of lens.now (F.files files.now)) (map tree_of conds.now)) }
{
    for cond in conds {
        if holds(alloc, lens, files, cond)? {
            return Ok(true);
        }
    }
    Ok(false)
}

/// Whether all of several conditions are true.
#[cycle(holds)]
fn all_hold<F: Present>(
    alloc: Global,
    lens: &Lens<'_>,
    files: &F,
    conds: &[Cond],
) -> Result<bool, CondFault>
    ensures { Gives result
        (every_truth (view_of lens.now (F.files files.now)) (map tree_of conds.now)) }
{
    for cond in conds {
        if !holds(alloc, lens, files, cond)? {
            return Ok(false);
        }
    }
    Ok(true)
}

/// Whether an operand is a true truth value.
fn is_true<F: Present>(
    alloc: Global,
    lens: &Lens<'_>,
    files: &F,
    operand: &Operand,
) -> Result<bool, CondFault>
    ensures { Gives result
        (and_then (text_of (view_of lens.now (F.files files.now)) (operand_of operand.now))
        truth_value) }
{
    let value = operand_text(alloc, lens, files, operand)?;
    match truth_of(value.as_str()) {
        Some(answer) => Ok(answer),
        None => Err(CondFault::NotBoolean(value)),
    }
}
