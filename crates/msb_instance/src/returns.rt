ghost use Rattle.std.specs.Prelude.{◌≡◌, ◌||◌, ◌&&◌, ℕ, List, map, is_some, IfOk, OnOk, codes};
ghost use Rattle.std.specs.Str.{bytes_eq};
ghost use Rattle.std.specs.List.{list_any};
ghost use Rattle.build_world.specs.Elements.{attribute_of, seen_placed};
ghost use Rattle.msb_instance.specs.Targets.{target_name_of, has_returns, file_has_returns};

use crate::names::target_name;
use build_world::Placed;
use indexmap::IndexSet;
use msb_values::{Copied, NoMemory, Text};
use std::alloc::Global;

/// The files that have a Target element with Returns, whether the element is used or not. (Target
/// element.)
pub(crate) fn files_with_returns(
    alloc: Global,
    elements: &[Placed],
) -> Result<IndexSet<Text>, NoMemory>
    ensures { IfOk result (λ files. (file : List ℕ)
        → list_any (bytes_eq file) files.keys
        ≡ file_has_returns (map seen_placed elements.now) file) }
{
    let mut files = IndexSet::new(alloc);
    for placed in elements {
        note(alloc, &mut files, placed)?;
    }
    Ok(files)
}

/// Puts the file of an element among the others, if the element is a Target element with Returns.
fn note(alloc: Global, files: &mut IndexSet<Text>, placed: &Placed) -> Result<(), NoMemory>
    ensures { OnOk result ((file : List ℕ) → list_any (bytes_eq file) files.new.keys
        ≡ list_any (bytes_eq file) files.old.keys || has_returns file (seen_placed placed.now)) }
{
    if is_returning(alloc, placed)? {
        files.insert(placed.file.copy()?)?;
    }
    Ok(())
}

/// Whether an element is a Target element with Returns.
fn is_returning(alloc: Global, placed: &Placed) -> Result<bool, NoMemory>
    ensures { IfOk result
        (λ answer. answer
        ≡ (is_some (target_name_of (seen_placed placed.now))
        && is_some (attribute_of (codes "Returns") (seen_placed placed.now)))) }
{
    if placed.element.attribute("Returns").is_none() {
        return Ok(false);
    }
    Ok(target_name(alloc, placed)?.is_some())
}
