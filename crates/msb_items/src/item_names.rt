ghost use Rattle.std.specs.Prelude.{◌≡◌, [], ◌∷◌, ◌++◌, IfOk, OnOk};
ghost use Rattle.msb_laws.specs.Results.{map_ok};
ghost use Rattle.msb_glob.specs.FoldedNames.{folded_names, seen_names, with_idents};
ghost use Rattle.msb_items.specs.Answers.{GivesCauseAs};
ghost use Rattle.msb_items.specs.FoldedNames.{is_named_by, item_unless, unnamed_by};
ghost use Rattle.msb_items.specs.ItemNames.{idents_of, names_of, patterns_of};
ghost use Rattle.msb_items.specs.Patterns.{is_pattern_entry, pattern_of};

use crate::entries::{is_pattern_entry, pattern_of};
use msb_expand::{Entry, folder_of};
use msb_glob::{ItemNames, Pattern};
use msb_values::{Cause, Item, List, NoMemory, unescape};
use std::alloc::Global;

/// What the entries of a list name. (MSBuild items, wildcards to specify items.)
pub(crate) fn names_of(alloc: Global, project: &str, entries: &[Entry]) -> Result<ItemNames, Cause>
    ensures { GivesCauseAs seen_names result
        (map_ok folded_names (names_of project.now entries.now)) }
{
    let mut patterns = List::new(alloc);
    push_patterns(alloc, &mut patterns, project, entries)?;
    let mut names = ItemNames::of(alloc, patterns);
    insert_idents(alloc, &mut names, entries)?;
    Ok(names)
}

/// Whether an entry is the item's identity, or a pattern among them matches it.
pub(crate) fn is_named(
    alloc: Global,
    project: &str,
    names: &ItemNames,
    item: &Item,
) -> Result<bool, NoMemory>
    ensures { IfOk result (λ is. is ≡ is_named_by project.now (seen_names names.now) item.now) }
{
    let ident = unescape(alloc, item.ident.as_str())?;
    names.names(alloc, folder_of(project), ident.as_str())
}

/// The items that are not named.
pub(crate) fn keep_unnamed(
    alloc: Global,
    project: &str,
    names: &ItemNames,
    items: Vec<Item>,
) -> Result<Vec<Item>, NoMemory>
    ensures { IfOk result (λ kept. kept.items
        ≡ unnamed_by project.now (seen_names names.now) items.items) }
{
    let mut kept = Vec::new(alloc);
    for item in items {
        let named = is_named(alloc, project, names, &item)?;
        keep_unless(&mut kept, named, item)?;
    }
    Ok(kept)
}

/// Puts an item behind others, unless it is named.
pub(crate) fn keep_unless(kept: &mut Vec<Item>, named: bool, item: Item) -> Result<(), NoMemory>
    ensures { OnOk result (kept.new.items ≡ kept.old.items ++ item_unless named item) }
{
    if named {
        return Ok(());
    }
    Ok(kept.push(item)?)
}

fn insert_idents(alloc: Global, names: &mut ItemNames, entries: &[Entry]) -> Result<(), NoMemory>
    ensures { OnOk result
        (seen_names names.new ≡ with_idents (seen_names names.old) (idents_of entries.now)) }
{
    for entry in entries {
        let ident = unescape(alloc, entry.item.ident.as_str())?;
        names.insert(alloc, ident.as_str())?;
    }
    Ok(())
}

fn push_patterns(
    alloc: Global,
    patterns: &mut List<Pattern>,
    project: &str,
    entries: &[Entry],
) -> Result<(), Cause>
    ensures { GivesCauseAs (λ _. patterns.new) result
        (map_ok (λ more. patterns.old ++ more) (patterns_of project.now entries.now)) }
{
    for entry in entries {
        push_pattern(alloc, patterns, project, entry)?;
    }
    Ok(())
}

fn push_pattern(
    alloc: Global,
    patterns: &mut List<Pattern>,
    project: &str,
    entry: &Entry,
) -> Result<(), Cause>
    ensures { GivesCauseAs (λ _. patterns.new) result
        (map_ok (λ more. patterns.old ++ more) (patterns_of project.now (entry.now ∷ []))) }
{
    if !is_pattern_entry(entry) {
        return Ok(());
    }
    let pattern = pattern_of(alloc, project, entry)?;
    Ok(patterns.push(pattern)?)
}
