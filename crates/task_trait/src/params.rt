ghost use Rattle.std.specs.Prelude.{◌≡◌, Some, option_map, IfOk, option_copied};
ghost use Rattle.task_trait.specs.Answers.{Checks, Gives, GivesAs};
ghost use Rattle.task_trait.specs.declared.failures.Failure.TheVariants.{BadParameter};
ghost use Rattle.task_trait.specs.Params.{
  check_known,
  cut_at_equals,
  first_unknown,
  items_of,
  least_unknown,
  lesser,
  needed_items,
  needed_text,
  pair_of,
  param_at,
  text_of,
  truth_at,
  with_key,
};

use crate::rows::is_known;
use crate::{Failure, Param};
use msb_values::{Item, Name, NoMemory, Text, truth_of};
use std::alloc::Global;

/// The items of a parameter, whose name is in lower case; none where it is not given. (Task
/// element.)
pub fn items_of<'a>(params: &'a [Param], name: &str) -> &'a [Item]
    ensures { result.now ≡ items_of name.now params.now }
{
    match param_at(params, name) {
        Some(param) => param.items.as_slice(),
        None => &[],
    }
}

fn param_at<'a>(params: &'a [Param], name: &str) -> Option<&'a Param>
    ensures { option_copied result ≡ param_at name.now params.now }
{
    params.iter().find(|param| param.name.key() == name)
}

/// The text of a parameter, which is handed as one item; an empty one also as none.
pub fn text_of<'a>(params: &'a [Param], name: &str) -> &'a str
    ensures { result.now ≡ text_of name.now params.now }
{
    match items_of(params, name) {
        [item, ..] => item.ident.as_str(),
        [] => "",
    }
}

/// Refuses parameters that a built-in task of this name does not have: the first of them in byte
/// order of names.
pub fn check_known(alloc: Global, task: &str, params: &[Param]) -> Result<(), Failure>
    ensures { Checks result (check_known task.now params.now) }
{
    match first_unknown(task, params) {
        Some(name) => Err(Failure::UnknownParameter(Text::of(alloc, name)?)),
        None => Ok(()),
    }
}

fn first_unknown<'a>(task: &str, params: &'a [Param]) -> Option<&'a str>
    ensures { option_copied result ≡ first_unknown task.now params.now }
{
    let mut least = None;
    for param in params {
        least = least_unknown(task, least, param.name.key());
    }
    least
}

/// The least name so far that is not known.
fn least_unknown<'a>(task: &str, least: Option<&'a str>, name: &'a str) -> Option<&'a str>
    ensures { option_copied result ≡ least_unknown task.now (option_copied least.entry) name.now }
{
    if is_known(task, name) {
        least
    } else {
        Some(lesser(least, name))
    }
}

fn lesser<'a>(least: Option<&'a str>, name: &'a str) -> &'a str
    ensures { result.now ≡ lesser (option_copied least.entry) name.now }
{
    match least {
        Some(other) => first_of(name, other),
        None => name,
    }
}

/// The first of two names in byte order.
fn first_of<'a>(name: &'a str, other: &'a str) -> &'a str
    ensures { result.now ≡ lesser (Some other.now) name.now }
{
    if name < other { name } else { other }
}

/// The items of a required parameter, which may be none.
pub fn needed_items<'a>(
    alloc: Global,
    params: &'a [Param],
    name: &str,
) -> Result<&'a [Item], Failure>
    ensures { GivesAs (λ items. items.now) result (needed_items name.now params.now) }
{
    match param_at(params, name) {
        Some(param) => Ok(param.items.as_slice()),
        None => Err(Failure::MissingParameter(Text::of(alloc, name)?)),
    }
}

/// The text of a required parameter, which is not empty.
pub fn needed_text<'a>(alloc: Global, params: &'a [Param], name: &str) -> Result<&'a str, Failure>
    ensures { GivesAs (λ text. text.now) result (needed_text name.now params.now) }
{
    let text = text_of(params, name);
    if text.is_empty() {
        return Err(Failure::MissingParameter(Text::of(alloc, name)?));
    }
    Ok(text)
}

/// The truth value of a parameter, which is false by default.
pub fn truth_at(alloc: Global, params: &[Param], name: &str) -> Result<bool, Failure>
    ensures { Gives result (truth_at name.now params.now) }
{
    let text = text_of(params, name);
    if text.is_empty() {
        return Ok(false);
    }
    match truth_of(text) {
        Some(truth) => Ok(truth),
        None => Err(bad_parameter(alloc, name)?),
    }
}

/// The failure of a parameter whose value the task cannot use.
pub fn bad_parameter(alloc: Global, name: &str) -> Result<Failure, NoMemory>
    ensures { IfOk result (λ failure. failure ≡ BadParameter name.now) }
{
    Ok(Failure::BadParameter(Text::of(alloc, name)?))
}

/// An entry `N=V`, cut at the first `=`: N is a name, and V may be any text. Another text gives
/// nothing.
pub fn pair_of(alloc: Global, text: &str) -> Result<Option<(Name, Text)>, NoMemory>
    ensures { IfOk result (λ pair. pair ≡ pair_of text.now) }
{
    match cut_at_equals(text) {
        Some((name, value)) => with_key(alloc, name, value),
        None => Ok(None),
    }
}

fn cut_at_equals(text: &str) -> Option<(&str, &str)>
    ensures { option_map (λ p. (p.0.now, p.1.now)) result ≡ cut_at_equals text.now }
{
    text.split_once('=')
}

fn with_key(alloc: Global, name: &str, value: &str) -> Result<Option<(Name, Text)>, NoMemory>
    ensures { IfOk result (λ pair. pair ≡ with_key (name.now, value.now)) }
{
    match Name::look_up(alloc, name)? {
        Some(name) => Ok(Some((name, Text::of(alloc, value)?))),
        None => Ok(None),
    }
}
