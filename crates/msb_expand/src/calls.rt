ghost use Rattle.std.specs.Prelude.{◌≡◌, Ok, Some, IfOk, map, option_map, option_copied};
ghost use Rattle.msb_expand.specs.Answers.{Gives, GivesAs};
ghost use Rattle.msb_expand.specs.Calls.{
  fault_of,
  or_fault,
  subject_of,
  argument_of,
  called,
  calls_value,
  calls_text,
};
ghost use Rattle.msb_expand.specs.Scenes.{scene_of};
ghost use Rattle.msb_functions.specs.Functions.{call_value};
ghost use Rattle.msb_expand.specs.declared.faults.ExpandFault.TheVariants.{Memory};

use crate::properties::property;
use crate::references::quoted_value;
use crate::{ExpandFault, Lens};
use msb_expression::{Call, Pieces, Word};
use msb_functions::{FuncFault, Texts, call};
use msb_values::{NoMemory, Text, escape, unescape};
use std::alloc::Global;

/// The value of a property reference with calls, escaped. (MSBuild property functions.)
pub(crate) fn calls_text(
    alloc: Global,
    lens: &Lens<'_>,
    subject: &Option<Word>,
    calls: &[Call],
) -> Result<Text, ExpandFault>
    ensures { Gives result (calls_text (scene_of lens.now) subject.now calls.now) }
{
    let subject = subject_of(alloc, lens, subject)?;
    let last = calls_value(alloc, lens, subject, calls)?;
    match last {
        Some(value) => Ok(escape(alloc, value.as_str())?),
        None => Ok(Text::of(alloc, "")?),
    }
}

/// The value of the property that the first call is one of, unescaped.
fn subject_of(
    alloc: Global,
    lens: &Lens<'_>,
    subject: &Option<Word>,
) -> Result<Option<Text>, NoMemory>
    ensures { IfOk result (λ text. text ≡ subject_of (scene_of lens.now) subject.now) }
{
    match subject {
        Some(name) => {
            let value = property(alloc, lens, name.as_str())?;
            Ok(Some(unescape(alloc, value.as_str())?))
        }
        None => Ok(None),
    }
}

/// What the last call gives, where each is one of what the call before it gives.
fn calls_value(
    alloc: Global,
    lens: &Lens<'_>,
    subject: Option<Text>,
    calls: &[Call],
) -> Result<Option<Text>, ExpandFault>
    ensures { Gives result (calls_value (scene_of lens.now) subject calls.now) }
{
    let mut value = subject;
    for call in calls {
        value = Some(call_function(alloc, lens, &value, call)?);
    }
    Ok(value)
}

/// What a call gives, of a text or of `[MSBuild]`.
fn call_function(
    alloc: Global,
    lens: &Lens<'_>,
    subject: &Option<Text>,
    call: &Call,
) -> Result<Text, ExpandFault>
    ensures { Gives result (called (scene_of lens.now) subject.now call.now) }
{
    match &call.args {
        None => result_of(alloc, subject, call.name.as_str(), None),
        Some(args) => {
            let texts = texts_of(alloc, lens, args.as_slice())?;
            result_of(alloc, subject, call.name.as_str(), Some(&texts))
        }
    }
}

/// The arguments, unescaped.
fn texts_of(alloc: Global, lens: &Lens<'_>, args: &[Pieces]) -> Result<Texts, ExpandFault>
    ensures { Gives result (Ok (map (argument_of (scene_of lens.now)) args.now)) }
{
    let mut texts = Texts::new(alloc);
    for pieces in args {
        texts.push(argument_of(alloc, lens, pieces)?)?;
    }
    Ok(texts)
}

fn argument_of(
    alloc: Global,
    lens: &Lens<'_>,
    pieces: &Pieces,
) -> Result<msb_functions::Word, ExpandFault>
    ensures { Gives result (Ok (argument_of (scene_of lens.now) pieces.now)) }
{
    let written = quoted_value(alloc, lens, pieces)?;
    let plain = unescape(alloc, written.as_str())?;
    Ok(msb_functions::Word::of(alloc, plain.as_str())?)
}

fn result_of(
    alloc: Global,
    subject: &Option<Text>,
    name: &str,
    args: Option<&Texts>,
) -> Result<Text, ExpandFault>
    ensures { Gives result
        (or_fault name.now (call_value subject.now name.now (option_copied args.entry))) }
{
    match call(alloc, text_of(subject), name, args) {
        Ok(word) => Ok(Text::of(alloc, word.as_str())?),
        Err(fault) => Err(fault_of(alloc, name, fault)?),
    }
}

fn text_of(subject: &Option<Text>) -> Option<&str>
    ensures { option_copied result ≡ subject.now }
{
    match subject {
        Some(text) => Some(text.as_str()),
        None => None,
    }
}

/// The fault of a function, with its name as it is written.
fn fault_of(alloc: Global, name: &str, fault: FuncFault) -> Result<ExpandFault, NoMemory>
    ensures { IfOk result (λ given. given ≡ fault_of name.now fault) }
{
    match fault {
        FuncFault::UnknownFunction => Ok(ExpandFault::UnknownFunction(Text::of(alloc, name)?)),
        FuncFault::BadArgument => Ok(ExpandFault::BadArgument(Text::of(alloc, name)?)),
        FuncFault::Overflow => Ok(ExpandFault::Overflow(Text::of(alloc, name)?)),
        FuncFault::Memory => Ok(ExpandFault::Memory),
    }
}

impl From<msb_functions::NoRoom> for ExpandFault {
    ghost from_gives = { λ _ e. e ≡ Memory };

    fn from(_: msb_functions::NoRoom) -> Self {
        ExpandFault::Memory
    }
}
