ghost use Rattle.std.specs.Prelude.{◌≡◌, [], IfOk, OnOk, unwrap_or};
ghost use Rattle.task_msbuild.specs.GlobalProperties.{
  property_of,
  properties_of,
  additional_of,
  removed_of,
  without_names,
};
ghost use Rattle.msb_values.specs.Pairs.{value_at, all_put};

use crate::name::literal_name;
use msb_expand::is_reserved;
use msb_values::{Copied, Item, List, Name, NoMemory, Pairs, Text, escape, split_list};
use std::alloc::Global;
use task_trait::pair_of;

/// The properties that the metadata AdditionalProperties of an item gives, if each of its entries
/// can be used. (MSBuild task.)
pub(crate) fn additional(alloc: Global, item: &Item) -> Result<Option<List<(Name, Text)>>, NoMemory>
    ensures { IfOk result (λ properties. properties ≡ additional_of item.now) }
{
    let name = literal_name(alloc, "additionalproperties")?;
    let entries = split_list(alloc, text_of(&item.meta, &name))?;
    properties(alloc, entries.as_slice())
}

fn text_of<'a>(meta: &'a Pairs, name: &Name) -> &'a str
    ensures { result.now ≡ unwrap_or (value_at name.now meta.now) [] }
{
    match meta.get(name) {
        Some(text) => text.as_str(),
        None => "",
    }
}

/// The properties of these entries, if each can be used. (MSBuild global properties.)
pub(crate) fn properties(
    alloc: Global,
    entries: &[Text],
) -> Result<Option<List<(Name, Text)>>, NoMemory>
    ensures { IfOk result (λ properties. properties ≡ properties_of entries.now) }
{
    let mut properties = List::new(alloc);
    for entry in entries {
        match property(alloc, entry.as_str())? {
            Some(property) => properties.push(property)?,
            None => return Ok(None),
        }
    }
    Ok(Some(properties))
}

/// The property of an entry `N=V`, whose value is escaped as it enters; of a property that the
/// engine sets itself there is none. (MSBuild reserved and well-known properties.)
fn property(alloc: Global, entry: &str) -> Result<Option<(Name, Text)>, NoMemory>
    ensures { IfOk result (λ property. property ≡ property_of entry.now) }
{
    match pair_of(alloc, entry)? {
        Some((name, value)) if !is_reserved(&name) => {
            Ok(Some((name, escape(alloc, value.as_str())?)))
        }
        _ => Ok(None),
    }
}

/// The properties that these entries name, if each is a name.
pub(crate) fn names(alloc: Global, entries: &[Text]) -> Result<Option<List<Name>>, NoMemory>
    ensures { IfOk result (λ names. names ≡ removed_of entries.now) }
{
    let mut names = List::new(alloc);
    for entry in entries {
        match Name::look_up(alloc, entry.as_str())? {
            Some(name) => names.push(name)?,
            None => return Ok(None),
        }
    }
    Ok(Some(names))
}

/// Takes away the properties of these names.
pub(crate) fn remove_all(globals: &mut Pairs, names: &[Name]) -> Result<(), NoMemory>
    ensures { OnOk result (globals.new ≡ without_names names.now globals.old) }
{
    for name in names {
        globals.take(name)?;
    }
    Ok(())
}

/// Puts these properties in, each in its turn.
pub(crate) fn put_all(globals: &mut Pairs, properties: &[(Name, Text)]) -> Result<(), NoMemory>
    ensures { OnOk result (globals.new ≡ all_put globals.old properties.now) }
{
    for (name, value) in properties {
        globals.insert(name.copy()?, value.copy()?)?;
    }
    Ok(())
}
