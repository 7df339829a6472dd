ghost use Rattle.std.specs.Prelude.{IfOk, ◌≡◌};
ghost use Rattle.msb_expand.specs.Answers.{Gives, GivesAs};
ghost use Rattle.msb_expand.specs.Scenes.{scene_of};
ghost use Rattle.msb_expand.specs.Values.{text_value, entries_value, items_of, list_value};

use crate::lists::read_parts;
use crate::reading::Reading;
use crate::texts::push_parts;
use crate::{Entry, ExpandFault, Lens};
use msb_expression::Expr;
use msb_values::{Item, List, NoMemory, Text};
use std::alloc::Global;

/// The text that an expression denotes, with its escapes as they are written, or the first fault
/// from the left. (MSBuild properties; MSBuild items; MSBuild transforms.)
pub fn text(alloc: Global, lens: &Lens<'_>, expr: &Expr) -> Result<Text, ExpandFault>
    ensures { Gives result (text_value (scene_of lens.now) expr.now.parts) }
{
    let mut text = Text::of(alloc, "")?;
    push_parts(alloc, &mut text, lens, expr.parts.as_slice())?;
    Ok(text)
}

/// The entries that an expression denotes as a list, or the first fault from the left. (MSBuild
/// items.)
pub fn entries(alloc: Global, lens: &Lens<'_>, expr: &Expr) -> Result<List<Entry>, ExpandFault>
    ensures { Gives result (entries_value (scene_of lens.now) expr.now.parts) }
{
    Ok(List::from(read_entries(alloc, lens, expr)?))
}

/// The items that an expression denotes as a list, or the first fault from the left. (MSBuild
/// items.)
pub fn list(alloc: Global, lens: &Lens<'_>, expr: &Expr) -> Result<List<Item>, ExpandFault>
    ensures { Gives result (list_value (scene_of lens.now) expr.now.parts) }
{
    Ok(items_of(alloc, read_entries(alloc, lens, expr)?)?)
}

fn items_of(alloc: Global, entries: Vec<Entry>) -> Result<List<Item>, NoMemory>
    ensures { IfOk result (λ items. items ≡ items_of entries.items) }
{
    let mut items = List::new(alloc);
    for entry in entries {
        items.push(entry.item)?;
    }
    Ok(items)
}

fn read_entries(alloc: Global, lens: &Lens<'_>, expr: &Expr) -> Result<Vec<Entry>, ExpandFault>
    ensures { GivesAs (λ entries. entries.items) result
        (entries_value (scene_of lens.now) expr.now.parts) }
{
    let mut reading = Reading::new(alloc);
    read_parts(alloc, &mut reading, lens, expr.parts.as_slice())?;
    reading.into_entries(alloc)
}
