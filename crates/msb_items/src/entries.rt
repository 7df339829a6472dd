ghost use Rattle.std.specs.Prelude.{◌≡◌, [], ◌∷◌, ◌++◌, map, IfOk, OnOk};
ghost use Rattle.std.specs.List.{list_any};
ghost use Rattle.msb_laws.specs.Results.{map_ok};
ghost use Rattle.msb_values.specs.Caused.{GivesCause};
ghost use Rattle.msb_items.specs.Answers.{GivesCauseAs};
ghost use Rattle.msb_items.specs.Items.{all_items, item_of, items_of, matched};
ghost use Rattle.msb_items.specs.Patterns.{is_pattern_entry, pattern_of};

use crate::files::ListedFiles;
use msb_expand::{Entry, folder_of};
use msb_glob::{GlobFault, HasPath, Match, Pattern, SortedPaths, expand_in, is_pattern};
use msb_values::{Cause, Copied, Item, NoMemory, Pairs, Text};
use std::alloc::Global;

/// Whether an entry is a pattern; one that a reference gives is none.
pub(crate) fn is_pattern_entry(entry: &Entry) -> bool
    ensures { result ≡ is_pattern_entry entry.now }
{
    entry.written && is_pattern(entry.item.ident.as_str())
}

/// Reads an entry as a pattern of the project at a path.
pub(crate) fn pattern_of(alloc: Global, project: &str, entry: &Entry) -> Result<Pattern, Cause>
    ensures { GivesCause result (pattern_of project.now entry.now) }
{
    let text = entry.item.ident.as_str();
    match Pattern::parse(alloc, folder_of(project), text) {
        Ok(pattern) => Ok(pattern),
        Err(GlobFault::StarsInSegment) => Err(Cause::StarsInSegment),
        Err(GlobFault::Path(_)) => Err(Cause::BadPath(Text::of(alloc, text)?)),
        Err(GlobFault::Memory) => Err(Cause::Memory),
    }
}

/// The items of the entries of an Include, one entry after another. (MSBuild items, wildcards to
/// specify items.)
pub(crate) fn all_items<P: HasPath>(
    alloc: Global,
    paths: &SortedPaths<'_, P>,
    project: &str,
    entries: &[Entry],
) -> Result<Vec<Item>, Cause>
    ensures { GivesCauseAs (λ items. items.items) result
        (all_items paths.now project.now entries.now) }
{
    let mut items = Vec::new(alloc);
    push_items(alloc, &mut items, paths, project, entries)?;
    Ok(items)
}

/// The items of the entries of an Include in a target, where the paths of the files are listed only
/// for a pattern.
pub(crate) fn items_by<F: ListedFiles>(
    alloc: Global,
    files: &F,
    project: &str,
    entries: &[Entry],
) -> Result<Vec<Item>, Cause>
    ensures { GivesCauseAs (λ items. items.items) result
        (all_items (F.files files.now) project.now entries.now) }
{
    if has_pattern(entries) {
        return listed_items(alloc, files, project, entries);
    }
    Ok(copies_of(alloc, entries)?)
}

fn listed_items<F: ListedFiles>(
    alloc: Global,
    files: &F,
    project: &str,
    entries: &[Entry],
) -> Result<Vec<Item>, Cause>
    ensures { GivesCauseAs (λ items. items.items) result
        (all_items (F.files files.now) project.now entries.now) }
{
    let paths = files.paths(alloc)?;
    let paths = SortedPaths::of_texts(paths.as_slice());
    all_items(alloc, &paths, project, entries)
}

fn has_pattern(entries: &[Entry]) -> bool
    ensures { result ≡ list_any is_pattern_entry entries.now }
{
    entries.iter().any(|entry| is_pattern_entry(entry))
}

fn copies_of(alloc: Global, entries: &[Entry]) -> Result<Vec<Item>, NoMemory>
    ensures { IfOk result (λ items. items.items ≡ map (λ entry. entry.item) entries.now) }
{
    let mut items = Vec::with_capacity(alloc, entries.len())?;
    for entry in entries {
        items.push(entry.item.copy()?)?;
    }
    Ok(items)
}

fn push_items<P: HasPath>(
    alloc: Global,
    items: &mut Vec<Item>,
    paths: &SortedPaths<'_, P>,
    project: &str,
    entries: &[Entry],
) -> Result<(), Cause>
    ensures { GivesCauseAs (λ _. items.new.items) result
        (map_ok (λ more. items.old.items ++ more) (all_items paths.now project.now entries.now)) }
{
    for entry in entries {
        push_items_of(alloc, items, paths, project, entry)?;
    }
    Ok(())
}

/// Adds the files that a pattern matches, or the entry itself, be there a file or not.
fn push_items_of<P: HasPath>(
    alloc: Global,
    items: &mut Vec<Item>,
    paths: &SortedPaths<'_, P>,
    project: &str,
    entry: &Entry,
) -> Result<(), Cause>
    ensures { GivesCauseAs (λ _. items.new.items) result
        (map_ok (λ more. items.old.items ++ more) (items_of paths.now project.now entry.now)) }
{
    if is_pattern_entry(entry) {
        return push_pattern(alloc, items, paths, project, entry);
    }
    Ok(push_copy(items, &entry.item)?)
}

fn push_pattern<P: HasPath>(
    alloc: Global,
    items: &mut Vec<Item>,
    paths: &SortedPaths<'_, P>,
    project: &str,
    entry: &Entry,
) -> Result<(), Cause>
    ensures { GivesCauseAs (λ _. items.new.items) result
        (map_ok (λ more. items.old.items ++ more)
        (map_ok (matched paths.now) (pattern_of project.now entry.now))) }
{
    let pattern = pattern_of(alloc, project, entry)?;
    Ok(push_matches(alloc, items, paths, &pattern)?)
}

fn push_copy(items: &mut Vec<Item>, item: &Item) -> Result<(), NoMemory>
    ensures { OnOk result (items.new.items ≡ items.old.items ++ item.now ∷ []) }
{
    let item = item.copy()?;
    Ok(items.push(item)?)
}

fn push_matches<P: HasPath>(
    alloc: Global,
    items: &mut Vec<Item>,
    paths: &SortedPaths<'_, P>,
    pattern: &Pattern,
) -> Result<(), NoMemory>
    ensures { OnOk result (items.new.items ≡ items.old.items ++ matched paths.now pattern.now) }
{
    match expand_in(alloc, paths, pattern) {
        Ok(matches) => push_each(alloc, items, matches.as_slice()),
        Err(_) => Err(NoMemory),
    }
}

fn push_each(alloc: Global, items: &mut Vec<Item>, matches: &[Match]) -> Result<(), NoMemory>
    ensures { OnOk result (items.new.items ≡ items.old.items ++ map item_of matches.now) }
{
    for found in matches {
        items.push(item_of(alloc, found)?)?;
    }
    Ok(())
}

fn item_of(alloc: Global, found: &Match) -> Result<Item, NoMemory>
    ensures { IfOk result (λ item. item ≡ item_of found.now) }
{
    Ok(Item {
        ident: Text::of(alloc, found.ident.as_str())?,
        recursive: Text::of(alloc, found.recursive.as_str())?,
        meta: Pairs::new(alloc),
    })
}
