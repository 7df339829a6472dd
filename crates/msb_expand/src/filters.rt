ghost use Rattle.std.specs.Prelude.{◌≡◌, ℕ, List, IfOk, map};
ghost use Rattle.msb_values.specs.Same.{is_same_text};
ghost use Rattle.msb_expand.specs.Answers.{Gives, GivesAs};
ghost use Rattle.msb_values.specs.Keys.{key_of};
ghost use Rattle.msb_expand.specs.Metadata.{metadata_if};
ghost use Rattle.msb_laws.specs.Results.{map_ok};
ghost use Rattle.msb_expand.specs.Functions.{filtered, any_passes, is_some_text};
ghost use Rattle.msb_expand.specs.Seen.{seen_item};
ghost use Rattle.msb_expand.specs.Wanted.{passes};

use crate::ExpandFault;
use crate::kept::keep_if;
use crate::seen::Seen;
use msb_values::{Folded, Name, NoMemory};
use std::alloc::Global;

/// What an item function wants of a metadata's text.
#[derive(Drop)]
pub(crate) enum Wanted {
    /// That there is some.
    Some,
    /// That it equals this value without case.
    Value(Folded),
}

impl Wanted {
    /// That it equals a value without case.
    fn value(alloc: Global, value: &str) -> Result<Wanted, NoMemory>
        ensures { IfOk result (λ wanted. (text : List ℕ)
            → passes wanted text ≡ is_same_text value.now text) }
    {
        Ok(Wanted::Value(Folded::of(alloc, value)?))
    }

    fn passes(&self, alloc: Global, text: &str) -> Result<bool, NoMemory>
        ensures { IfOk result (λ is. is ≡ passes self.now text.now) }
    {
        match self {
            Wanted::Some => Ok(!text.is_empty()),
            Wanted::Value(value) => Ok(*value == Folded::of(alloc, text)?),
        }
    }
}

/// The items whose metadata of this name is not empty.
pub(crate) fn with_some<'a>(
    alloc: Global,
    project: &str,
    of: &str,
    items: Vec<Seen<'a>>,
) -> Result<Vec<Seen<'a>>, ExpandFault>
    ensures { GivesAs (λ seen. map seen_item seen.items) result
        (filtered project.now of.now is_some_text (map seen_item items.entry.items)) }
{
    filter(alloc, project, of, &Wanted::Some, items)
}

/// The items whose metadata of this name equals a value without case.
pub(crate) fn with_value<'a>(
    alloc: Global,
    project: &str,
    of: &str,
    value: &str,
    items: Vec<Seen<'a>>,
) -> Result<Vec<Seen<'a>>, ExpandFault>
    ensures { GivesAs (λ seen. map seen_item seen.items) result
        (filtered project.now of.now (is_same_text value.now) (map seen_item items.entry.items)) }
{
    let wanted = Wanted::value(alloc, value)?;
    filter(alloc, project, of, &wanted, items)
}

/// Whether the metadata of this name equals a value, without case, of any item.
pub(crate) fn any_with_value(
    alloc: Global,
    project: &str,
    of: &str,
    value: &str,
    items: &[Seen<'_>],
) -> Result<bool, ExpandFault>
    ensures { Gives result
        (any_passes project.now of.now (is_same_text value.now) (map seen_item items.now)) }
{
    let wanted = Wanted::value(alloc, value)?;
    any_passes(alloc, project, of, &wanted, items)
}

/// The items whose metadata of this name passes.
fn filter<'a>(
    alloc: Global,
    project: &str,
    of: &str,
    wanted: &Wanted,
    items: Vec<Seen<'a>>,
) -> Result<Vec<Seen<'a>>, ExpandFault>
    ensures { GivesAs (λ seen. map seen_item seen.items) result
        (filtered project.now of.now (passes wanted.now) (map seen_item items.entry.items)) }
{
    let key = Name::look_up(alloc, of)?;
    let mut kept = Vec::new(alloc);
    for item in items {
        let passes = item_passes(alloc, project, &key, wanted, &item)?;
        keep_if(&mut kept, passes, item)?;
    }
    Ok(kept)
}

/// Whether the metadata of this name passes of any item; those behind it are not asked.
fn any_passes(
    alloc: Global,
    project: &str,
    of: &str,
    wanted: &Wanted,
    items: &[Seen<'_>],
) -> Result<bool, ExpandFault>
    ensures { Gives result
        (any_passes project.now of.now (passes wanted.now) (map seen_item items.now)) }
{
    let key = Name::look_up(alloc, of)?;
    for item in items {
        if item_passes(alloc, project, &key, wanted, item)? {
            return Ok(true);
        }
    }
    Ok(false)
}

fn item_passes(
    alloc: Global,
    project: &str,
    key: &Option<Name>,
    wanted: &Wanted,
    item: &Seen<'_>,
) -> Result<bool, ExpandFault>
    ensures { Gives result
        (map_ok (passes wanted.now) (metadata_if project.now (seen_item item.now) key.now)) }
{
    let value = item.metadata_if(alloc, project, key)?;
    Ok(wanted.passes(alloc, value.as_str())?)
}
