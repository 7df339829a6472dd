ghost use Rattle.std.specs.Prelude.{◌≡◌, [], ◌∷◌, IfOk, map, option_and_then};
ghost use Rattle.std.specs.Fmt.{decimal};
ghost use Rattle.msb_values.specs.Pairs.{value_at};
ghost use Rattle.msb_values.specs.Same.{is_same_text};
ghost use Rattle.msb_expand.specs.declared.faults.ExpandFault.TheVariants.{UnknownFunction};
ghost use Rattle.msb_expand.specs.Answers.{GivesAs};
ghost use Rattle.msb_values.specs.Keys.{key_of};
ghost use Rattle.msb_laws.specs.Results.{map_ok};
ghost use Rattle.msb_expand.specs.Functions.{
  functions,
  function_result,
  any_passes,
  plain_item,
  truth_text,
};
ghost use Rattle.msb_expand.specs.Seen.{seen_item};

use crate::ExpandFault;
use crate::filters::{any_with_value, with_some, with_value};
use crate::kept::{distinct, reverse, without_metadata};
use crate::seen::Seen;
use msb_values::{Name, NoMemory, Text};
use std::alloc::Global;

/// What is done to the items of a reference. (MSBuild item functions.)
#[derive(Clone, Copy, Debug, PartialEq, Eq)]
pub enum Function {
    Count,
    Distinct,
    Reverse,
    HasMetadata,
    WithMetadataValue,
    AnyHaveMetadataValue,
    ClearMetadata,
}

impl Function {
    /// The function of this name, in whatever case.
    fn find(alloc: Global, name: &str) -> Result<Option<Function>, NoMemory>
        ensures { IfOk result (λ function. function
            ≡ option_and_then (λ key. value_at key functions) (key_of name.now)) }
    {
        match Name::look_up(alloc, name)? {
            Some(key) => Ok(Function::of_key(key.key())),
            None => Ok(None),
        }
    }

    fn of_key(key: &str) -> Option<Function>
        ensures { result ≡ value_at key.now functions }
    {
        match key {
            "count" => Some(Function::Count),
            "distinct" => Some(Function::Distinct),
            "reverse" => Some(Function::Reverse),
            "hasmetadata" => Some(Function::HasMetadata),
            "withmetadatavalue" => Some(Function::WithMetadataValue),
            "anyhavemetadatavalue" => Some(Function::AnyHaveMetadataValue),
            "clearmetadata" => Some(Function::ClearMetadata),
            _ => None,
        }
    }
}

/// The result of an item function; another name, or another number of arguments, is refused.
pub(crate) fn call<'a>(
    alloc: Global,
    project: &str,
    name: &str,
    args: &[Text],
    items: Vec<Seen<'a>>,
) -> Result<Vec<Seen<'a>>, ExpandFault>
    ensures { GivesAs (λ seen. map seen_item seen.items) result
        (function_result project.now name.now
        (option_and_then (λ key. value_at key functions) (key_of name.now)) args.now
        (map seen_item items.entry.items)) }
{
    let called = CalledFunction {
        project,
        name,
        function: Function::find(alloc, name)?,
    };
    match args {
        [] => called.call_plain(alloc, items),
        [of] => called.call_of(alloc, of, items),
        [of, value] => called.call_with(alloc, of, value, items),
        _ => Err(unknown(alloc, name)?),
    }
}

/// The function that a step calls by its name, and the project that it is called in.
#[derive(Clone, Copy)]
struct CalledFunction<'n> {
    /// The path of the project.
    project: &'n str,
    /// The name as the step writes it.
    name: &'n str,
    /// The function of this name.
    function: Option<Function>,
}

impl CalledFunction<'_> {
    fn call_plain<'a>(
        &self,
        alloc: Global,
        items: Vec<Seen<'a>>,
    ) -> Result<Vec<Seen<'a>>, ExpandFault>
        ensures { GivesAs (λ seen. map seen_item seen.items) result
            (function_result self.now.project.now self.now.name.now self.now.function []
            (map seen_item items.entry.items)) }
    {
        match self.function {
            Some(Function::Count) => Ok(count(alloc, items.len())?),
            Some(Function::Distinct) => Ok(distinct(alloc, items)?),
            Some(Function::Reverse) => Ok(reverse(items)),
            Some(Function::ClearMetadata) => Ok(without_metadata(alloc, items)?),
            _ => Err(unknown(alloc, self.name)?),
        }
    }

    fn call_of<'a>(
        &self,
        alloc: Global,
        of: &Text,
        items: Vec<Seen<'a>>,
    ) -> Result<Vec<Seen<'a>>, ExpandFault>
        ensures { GivesAs (λ seen. map seen_item seen.items) result
            (function_result self.now.project.now self.now.name.now self.now.function
            (of.now ∷ []) (map seen_item items.entry.items)) }
    {
        match self.function {
            Some(Function::HasMetadata) => with_some(alloc, self.project, of.as_str(), items),
            _ => Err(unknown(alloc, self.name)?),
        }
    }

    fn call_with<'a>(
        &self,
        alloc: Global,
        of: &Text,
        value: &Text,
        items: Vec<Seen<'a>>,
    ) -> Result<Vec<Seen<'a>>, ExpandFault>
        ensures { GivesAs (λ seen. map seen_item seen.items) result
            (function_result self.now.project.now self.now.name.now self.now.function
            (of.now ∷ value.now ∷ []) (map seen_item items.entry.items)) }
    {
        match self.function {
            Some(Function::WithMetadataValue) => {
                with_value(alloc, self.project, of.as_str(), value.as_str(), items)
            }
            Some(Function::AnyHaveMetadataValue) => {
                any_truth(alloc, self.project, of.as_str(), value.as_str(), &items)
            }
            _ => Err(unknown(alloc, self.name)?),
        }
    }
}

fn unknown(alloc: Global, name: &str) -> Result<ExpandFault, NoMemory>
    ensures { IfOk result (λ fault. fault ≡ UnknownFunction name.now) }
{
    Ok(ExpandFault::UnknownFunction(Text::of(alloc, name)?))
}

/// One item, whether the metadata equals this value of any item.
fn any_truth<'a>(
    alloc: Global,
    project: &str,
    of: &str,
    value: &str,
    items: &[Seen<'_>],
) -> Result<Vec<Seen<'a>>, ExpandFault>
    ensures { GivesAs (λ seen. map seen_item seen.items) result
        (map_ok (λ any. plain_item (truth_text any) ∷ [])
        (any_passes project.now of.now (is_same_text value.now) (map seen_item items.now))) }
{
    let any = any_with_value(alloc, project, of, value, items)?;
    Ok(truth(alloc, any)?)
}

/// One item, the number in decimal.
fn count<'a>(alloc: Global, number: usize) -> Result<Vec<Seen<'a>>, NoMemory>
    ensures { IfOk result (λ seen. map seen_item seen.items ≡ plain_item (decimal number) ∷ []) }
{
    let text = format!(in alloc; "{number}")?;
    one_item(alloc, Text::from(text))
}

/// One item, the truth value.
fn truth<'a>(alloc: Global, is: bool) -> Result<Vec<Seen<'a>>, NoMemory>
    ensures { IfOk result (λ seen. map seen_item seen.items ≡ plain_item (truth_text is) ∷ []) }
{
    one_item(alloc, Text::of(alloc, truth_text(is))?)
}

fn truth_text(is: bool) -> &'static str
    ensures { result.now ≡ truth_text is }
{
    if is { "true" } else { "false" }
}

fn one_item<'a>(alloc: Global, text: Text) -> Result<Vec<Seen<'a>>, NoMemory>
    ensures { IfOk result (λ seen. map seen_item seen.items ≡ plain_item text ∷ []) }
{
    let mut items = Vec::new(alloc);
    items.push(Seen::plain(text))?;
    Ok(items)
}
