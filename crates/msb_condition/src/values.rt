ghost use Rattle.std.specs.Prelude.{◌≡◌, IfOk};
ghost use Rattle.msb_condition.specs.Answers.{Gives, view_of};
ghost use Rattle.msb_condition.specs.Truth.{operand_text, function_result, unescaped_text, shown};
ghost use Rattle.msb_condition.specs.View.{operand_of};
ghost use Rattle.msb_expand.specs.Scenes.{scene_of};
ghost use Rattle.msb_expand.specs.Values.{text_value};

use crate::functions::{exists, has_trailing_slash};
use crate::{CondFault, Function, Operand};
use msb_expand::{Lens, text};
use msb_expression::Expr;
use msb_paths::Present;
use msb_values::{NoMemory, Text, unescape};
use std::alloc::Global;

/// The text of an operand, without its escapes.
pub(crate) fn operand_text<F: Present>(
    alloc: Global,
    lens: &Lens<'_>,
    files: &F,
    operand: &Operand,
) -> Result<Text, CondFault>
    ensures { Gives result
        (operand_text (view_of lens.now (F.files files.now)) (operand_of operand.now)) }
{
    match operand {
        Operand::Text(expr) => unescaped_text(alloc, lens, expr),
        Operand::Call(function, inner) => {
            let path = operand_text(alloc, lens, files, inner)?;
            let answer = function_result(alloc, lens, files, *function, path.as_str())?;
            Ok(Text::of(alloc, show(answer))?)
        }
    }
}

fn unescaped_text(alloc: Global, lens: &Lens<'_>, expr: &Expr) -> Result<Text, CondFault>
    ensures { Gives result (unescaped_text (text_value (scene_of lens.now) expr.now.parts)) }
{
    let value = text(alloc, lens, expr)?;
    Ok(unescape(alloc, value.as_str())?)
}

fn function_result<F: Present>(
    alloc: Global,
    lens: &Lens<'_>,
    files: &F,
    function: Function,
    path: &str,
) -> Result<bool, NoMemory>
    ensures { IfOk result
        (λ b. b ≡ function_result (view_of lens.now (F.files files.now)) function path.now) }
{
    match function {
        Function::Exists => exists(alloc, lens.dir, files, path),
        Function::HasTrailingSlash => Ok(has_trailing_slash(path)),
    }
}

fn show(value: bool) -> &'static str
    ensures { result.now ≡ shown value }
{
    if value { "true" } else { "false" }
}
