ghost use Rattle.std.specs.Prelude.{◌≡◌, [], option_map};
ghost use Rattle.msb_words.specs.Answers.{Reads};
ghost use Rattle.msb_words.specs.Values.{
  cut_at_equals,
  global_of,
  globals_after,
  globals_if,
  globals_in,
  property_name,
};

use crate::WordFault;
use crate::entries::entries_in;
use msb_reserved::is_reserved;
use msb_values::{Name, Named, Pairs, Text};
use std::alloc::Global;

/// The global properties that are given, or none where the option is left out. (MSBuild global
/// properties.)
pub(crate) fn globals(alloc: Global, value: Option<&str>) -> Result<Pairs, WordFault>
    ensures { Reads (globals_if (option_map (λ v. v.now) value.entry)) result }
{
    match value {
        Some(value) => globals_in(alloc, value),
        None => Ok(Named::new(alloc)),
    }
}

fn globals_in(alloc: Global, value: &str) -> Result<Pairs, WordFault>
    ensures { Reads (globals_in value.now) result }
{
    let entries = entries_in(alloc, value)?;
    each_global(alloc, entries.as_slice())
}

fn each_global(alloc: Global, entries: &[Text]) -> Result<Pairs, WordFault>
    ensures { Reads (globals_after [] entries.now) result }
{
    let mut globals = Named::new(alloc);
    for entry in entries {
        let (name, value) = global_of(alloc, entry.as_str())?;
        globals.insert(name, value)?;
    }
    Ok(globals)
}

// An entry `N=V`. (MSBuild command-line reference.)
fn global_of(alloc: Global, entry: &str) -> Result<(Name, Text), WordFault>
    ensures { Reads (global_of entry.now) result }
{
    match cut_at_equals(entry) {
        Some((name, value)) => Ok((property_name(alloc, name)?, Text::of(alloc, value)?)),
        None => Err(WordFault::Usage),
    }
}

fn cut_at_equals(text: &str) -> Option<(&str, &str)>
    ensures { option_map (λ p. (p.0.now, p.1.now)) result ≡ cut_at_equals text.now }
{
    text.split_once('=')
}

// A property that the engine does not set itself. (MSBuild reserved and well-known properties.)
fn property_name(alloc: Global, text: &str) -> Result<Name, WordFault>
    ensures { Reads (property_name text.now) result }
{
    let name = Name::read(alloc, text)?;
    if is_reserved(&name) {
        return Err(WordFault::Usage);
    }
    Ok(name)
}
