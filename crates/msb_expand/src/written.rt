ghost use Rattle.msb_laws.specs.Results.{all_ok};
ghost use Rattle.msb_values.specs.Caused.{GivesCause};
ghost use Rattle.msb_expand.specs.Scenes.{scene_of};
ghost use Rattle.msb_expand.specs.Written.{
  expanded,
  expanded_entries,
  expanded_items,
  target_name,
  target_names,
};

use crate::{Entry, Lens, entries, expression_cause, list, text};
use msb_expression::parse;
use msb_values::{Cause, Item, List, Name, NameFault, Text};
use std::alloc::Global;

/// The text that a text of a project file denotes where it stands. (MSBuild properties; MSBuild
/// items.)
pub fn expand_text(alloc: Global, lens: &Lens<'_>, written: &str) -> Result<Text, Cause>
    ensures { GivesCause result (expanded (scene_of lens.now) written.now) }
{
    match parse(alloc, written) {
        Ok(expr) => Ok(text(alloc, lens, &expr)?),
        Err(fault) => Err(expression_cause(fault)),
    }
}

/// The entries that a text of a project file denotes as a list where it stands. (MSBuild items.)
pub fn expand_entries(alloc: Global, lens: &Lens<'_>, written: &str) -> Result<List<Entry>, Cause>
    ensures { GivesCause result (expanded_entries (scene_of lens.now) written.now) }
{
    match parse(alloc, written) {
        Ok(expr) => Ok(entries(alloc, lens, &expr)?),
        Err(fault) => Err(expression_cause(fault)),
    }
}

/// The items that a text of a project file denotes as a list where it stands. (MSBuild items.)
pub fn expand_list(alloc: Global, lens: &Lens<'_>, written: &str) -> Result<List<Item>, Cause>
    ensures { GivesCause result (expanded_items (scene_of lens.now) written.now) }
{
    match parse(alloc, written) {
        Ok(expr) => Ok(list(alloc, lens, &expr)?),
        Err(fault) => Err(expression_cause(fault)),
    }
}

/// The targets that a text of a project file names as a list where it stands. An entry that is no
/// target's name is refused as [`Cause::BadName`] with the place of its first bad byte in the
/// entry. (MSBuild targets.)
pub fn expand_names(alloc: Global, lens: &Lens<'_>, written: &str) -> Result<List<Name>, Cause>
    ensures { GivesCause result (target_names (scene_of lens.now) written.now) }
{
    let items = expand_list(alloc, lens, written)?;
    each_name(alloc, items.as_slice())
}

fn each_name(alloc: Global, items: &[Item]) -> Result<List<Name>, Cause>
    ensures { GivesCause result (all_ok target_name items.now) }
{
    let mut names = List::new(alloc);
    for item in items {
        let name = target_name(alloc, item)?;
        names.push(name)?;
    }
    Ok(names)
}

fn target_name(alloc: Global, item: &Item) -> Result<Name, Cause>
    ensures { GivesCause result (target_name item.now) }
{
    match Name::read_target(alloc, item.ident.as_str()) {
        Ok(name) => Ok(name),
        Err(NameFault::BadName(place)) => Err(Cause::BadName(place)),
        Err(NameFault::Memory) => Err(Cause::Memory),
    }
}
