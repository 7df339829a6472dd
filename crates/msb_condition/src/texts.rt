ghost use Rattle.std.specs.Prelude.{◌≡◌, ◌++◌, OnOk, map};
ghost use Rattle.std.specs.List.{flat_map};
ghost use Rattle.msb_condition.specs.Texts.{expr_of, texts_of};
ghost use Rattle.msb_condition.specs.View.{tree_of, operand_of};

use crate::{Cond, Operand};
use msb_expression::Expr;
use msb_values::NoMemory;

impl Cond {
    /// Puts the condition's texts behind others, from the left, also those that evaluation does not
    /// reach. (MSBuild conditions; MSBuild batching.)
    #[cycle(texts)]
    pub fn push_texts<'c>(&'c self, texts: &mut Vec<&'c Expr>) -> Result<(), NoMemory>
        ensures { OnOk result (map (λ text. text.now) texts.new.items
            ≡ map (λ text. text.now) texts.old.items ++ texts_of (tree_of self.now)) }
    {
        match self {
            Cond::Empty => Ok(()),
            Cond::Or(first, others) => {
                first.push_texts(texts)?;
                push_all_texts(others, texts)
            }
            Cond::And(first, others) => {
                first.push_texts(texts)?;
                push_all_texts(others, texts)
            }
            Cond::Not(inner) => inner.push_texts(texts),
            Cond::Compare(_, left, right) => {
                texts.push(left.expr())?;
                Ok(texts.push(right.expr())?)
            }
            Cond::Truth(operand) => Ok(texts.push(operand.expr())?),
        }
    }
}

#[cycle(texts)]
fn push_all_texts<'c>(conds: &'c [Cond], texts: &mut Vec<&'c Expr>) -> Result<(), NoMemory>
    ensures { OnOk result (map (λ text. text.now) texts.new.items
        ≡ map (λ text. text.now) texts.old.items ++ flat_map texts_of (map tree_of conds.now)) }
{
    for cond in conds {
        cond.push_texts(texts)?;
    }
    Ok(())
}

impl Operand {
    /// The operand's text, which functions may stand around.
    fn expr(&self) -> &Expr
        ensures { result.now ≡ expr_of (operand_of self.now) }
    {
        match self {
            Operand::Text(expr) => expr,
            Operand::Call(_, inner) => inner.expr(),
        }
    }
}
