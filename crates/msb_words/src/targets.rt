ghost use Rattle.std.specs.Prelude.{option_map};
ghost use Rattle.msb_laws.specs.Traverse.{traverse};
ghost use Rattle.msb_words.specs.Answers.{Reads};
ghost use Rattle.msb_words.specs.Values.{target_name, targets_if, targets_in};

use crate::WordFault;
use crate::entries::entries_in;
use msb_values::{List, Name, Text};
use std::alloc::Global;

/// The targets that are named, or none where the option is left out. (MSBuild targets.)
pub(crate) fn targets(alloc: Global, value: Option<&str>) -> Result<List<Name>, WordFault>
    ensures { Reads (targets_if (option_map (λ v. v.now) value.entry)) result }
{
    match value {
        Some(value) => targets_in(alloc, value),
        None => Ok(List::new(alloc)),
    }
}

fn targets_in(alloc: Global, value: &str) -> Result<List<Name>, WordFault>
    ensures { Reads (targets_in value.now) result }
{
    let entries = entries_in(alloc, value)?;
    each_name(alloc, entries.as_slice())
}

fn each_name(alloc: Global, entries: &[Text]) -> Result<List<Name>, WordFault>
    ensures { Reads (traverse target_name entries.now) result }
{
    let mut names = List::new(alloc);
    for entry in entries {
        names.push(target_name(alloc, entry.as_str())?)?;
    }
    Ok(names)
}

fn target_name(alloc: Global, text: &str) -> Result<Name, WordFault>
    ensures { Reads (target_name text.now) result }
{
    Ok(Name::read_target(alloc, text)?)
}
