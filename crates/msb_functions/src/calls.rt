ghost use Rattle.std.specs.Prelude.{Some, None, option_copied};
ghost use Rattle.msb_functions.specs.Answers.{Gives};
ghost use Rattle.msb_functions.specs.Functions.{call_value, text_value, text_call, build_call};
ghost use Rattle.msb_functions.specs.Names.{named, text_functions, build_functions};

use crate::names::{BuildFunction, TextFunction, is_length};
use crate::sums::build_value;
use crate::text_calls::{length, text_value};
use crate::{FuncFault, Texts, Word};
use std::alloc::Global;

/// The value of a property function: of a text, or of `[MSBuild]` where there is none; with its
/// arguments, or without parentheses. Names are without case ("Property functions" in the MSBuild
/// documentation).
pub fn call(
    alloc: Global,
    subject: Option<&str>,
    name: &str,
    args: Option<&Texts>,
) -> Result<Word, FuncFault>
    ensures { Gives result
        (call_value (option_copied subject.entry) name.now (option_copied args.entry)) }
{
    match subject {
        Some(text) => of_text(alloc, text, name, args),
        None => of_build(alloc, name, args),
    }
}

fn of_text(alloc: Global, text: &str, name: &str, args: Option<&Texts>) -> Result<Word, FuncFault>
    ensures { Gives result (call_value (Some text.now) name.now (option_copied args.entry)) }
{
    match args {
        None => without_args(alloc, text, name),
        Some(args) => match TextFunction::find(alloc, name)? {
            Some(function) => text_value(alloc, function, text, args.as_slice()),
            None => Err(FuncFault::UnknownFunction),
        },
    }
}

fn without_args(alloc: Global, text: &str, name: &str) -> Result<Word, FuncFault>
    ensures { Gives result (text_value text.now name.now) }
{
    if is_length(alloc, name)? {
        Ok(length(alloc, text)?)
    } else {
        Err(FuncFault::UnknownFunction)
    }
}

fn of_build(alloc: Global, name: &str, args: Option<&Texts>) -> Result<Word, FuncFault>
    ensures { Gives result (call_value None name.now (option_copied args.entry)) }
{
    match args {
        None => Err(FuncFault::UnknownFunction),
        Some(args) => match BuildFunction::find(alloc, name)? {
            Some(function) => build_value(alloc, function, args.as_slice()),
            None => Err(FuncFault::UnknownFunction),
        },
    }
}
