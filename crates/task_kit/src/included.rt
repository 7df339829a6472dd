ghost use Rattle.std.specs.Prelude.{◌≡◌, [], ◌∷◌, ◌++◌, codes, map, IfOk, OnOk};
ghost use Rattle.std.specs.List.{list_any};
ghost use Rattle.std.specs.Str.{bytes_eq};
ghost use Rattle.msb_laws.specs.Results.{all_ok, map_ok};
ghost use Rattle.msb_values.specs.Changes.{with_metadata};
ghost use Rattle.msb_values.specs.Pairs.{all_put};
ghost use Rattle.msb_expand.specs.Computed.{is_computed, left_out};
ghost use Rattle.msb_files.specs.Views.{paths};
ghost use Rattle.task_trait.specs.Answers.{Gives, GivesAs};
ghost use Rattle.task_kit.specs.Progress.{succeeded};
ghost use Rattle.task_kit.specs.Included.{
  create_item,
  include_output,
  item_matched,
  items_created,
  items_included,
  items_matched,
  items_of_entry,
  metadata_in,
  pattern_in,
};

use crate::excluded::{excluded_names, without_excluded};
use crate::patterns::{excluded_patterns, is_pattern_entry, pattern_in};
use crate::progress::{output, success};
use msb_expand::is_well_known;
use msb_files::FileView;
use msb_glob::{Match, Pattern, SortedPaths, expand_in};
use msb_values::{Copied, Item, List, Name, NoMemory, Pairs, Text, unescape};
use std::alloc::Global;
use task_trait::{
    Failure, Param, TaskOutput, bad_parameter, check_known, items_of, needed_items, pair_of,
};

/// The items of the entries, less those that Exclude names, with the metadata that are given.
/// (CreateItem task.)
pub(crate) fn create_item(
    alloc: Global,
    dir: &str,
    view: &FileView<'_>,
    params: &[Param],
) -> Result<TaskOutput, Failure>
    ensures { Gives result (create_item dir.now view.now params.now) }
{
    check_known(alloc, "createitem", params)?;
    let entries = needed_items(alloc, params, "include")?;
    let metadata = all_metadata(alloc, items_of(params, "additionalmetadata"))?;
    let items = create_items(alloc, dir, view, entries, items_of(params, "exclude"))?;
    Ok(inclusion_output(alloc, metadata.as_slice(), items)?)
}

/// The items of the entries, less those that Exclude names.
fn create_items(
    alloc: Global,
    dir: &str,
    view: &FileView<'_>,
    entries: &[Item],
    excluded: &[Item],
) -> Result<Vec<Item>, Failure>
    ensures { GivesAs (λ items. items.items) result
        (items_created dir.now (paths view.now) entries.now excluded.now) }
{
    let patterns = excluded_patterns(alloc, dir, excluded)?;
    let items = included_items(alloc, dir, view, entries)?;
    let names = excluded_names(alloc, patterns, excluded)?;
    Ok(without_excluded(alloc, dir, &names, items.into_vec())?)
}

/// The output with these items, each with these metadata.
fn inclusion_output(
    alloc: Global,
    metadata: &[(Name, Text)],
    items: Vec<Item>,
) -> Result<TaskOutput, NoMemory>
    ensures { IfOk result
        (λ output. output
        ≡ succeeded (include_output (map (with_metadata metadata.now) items.items) ∷ [])) }
{
    let items = with_all_metadata(alloc, metadata, items)?;
    let mut outputs = List::new(alloc);
    outputs.push(output(alloc, "include", items)?)?;
    Ok(success(alloc, outputs))
}

fn all_metadata(alloc: Global, entries: &[Item]) -> Result<List<(Name, Text)>, Failure>
    ensures { Gives result (all_ok metadata_in entries.now) }
{
    let mut all = List::new(alloc);
    for entry in entries {
        let pair = metadata_in(alloc, entry)?;
        all.push(pair)?;
    }
    Ok(all)
}

/// An entry of AdditionalMetadata: a name that is not computed, and its value.
fn metadata_in(alloc: Global, entry: &Item) -> Result<(Name, Text), Failure>
    ensures { Gives result (metadata_in entry.now) }
{
    match pair_of(alloc, entry.ident.as_str())? {
        Some((name, value)) => {
            if is_computed(&name) {
                return Err(bad_parameter(alloc, "additionalmetadata")?);
            }
            Ok((name, value))
        }
        None => Err(bad_parameter(alloc, "additionalmetadata")?),
    }
}

/// Whether metadata of this name are computed, and never given. (MSBuild well-known item metadata.)
fn is_computed(name: &Name) -> bool
    ensures { result ≡ is_computed name.now }
{
    is_well_known(name) || is_left_out(name.key())
}

fn is_left_out(name: &str) -> bool
    ensures { result ≡ list_any (bytes_eq name.now) left_out }
{
    match name {
        "modifiedtime"
        | "createdtime"
        | "accessedtime"
        | "definingprojectfullpath"
        | "definingprojectdirectory"
        | "definingprojectname"
        | "definingprojectextension" => true,
        _ => false,
    }
}

/// The items of the entries of Include, one entry after another.
fn included_items(
    alloc: Global,
    dir: &str,
    view: &FileView<'_>,
    entries: &[Item],
) -> Result<List<Item>, Failure>
    ensures { Gives result (items_included dir.now (paths view.now) entries.now) }
{
    let paths = view.paths(alloc)?;
    let sorted = SortedPaths::of_texts(paths.as_slice());
    let mut items = List::new(alloc);
    push_items(alloc, &mut items, dir, &sorted, entries)?;
    Ok(items)
}

fn push_items(
    alloc: Global,
    items: &mut List<Item>,
    dir: &str,
    paths: &SortedPaths<'_, Text>,
    entries: &[Item],
) -> Result<(), Failure>
    ensures { GivesAs (λ _. items.new) result
        (map_ok (λ more. items.old ++ more) (items_included dir.now paths.now entries.now)) }
{
    for entry in entries {
        push_items_of(alloc, items, dir, paths, entry)?;
    }
    Ok(())
}

/// Adds the files that a pattern matches, or the entry itself, be there a file or not.
fn push_items_of(
    alloc: Global,
    items: &mut List<Item>,
    dir: &str,
    paths: &SortedPaths<'_, Text>,
    entry: &Item,
) -> Result<(), Failure>
    ensures { GivesAs (λ _. items.new) result
        (map_ok (λ more. items.old ++ more) (items_of_entry dir.now paths.now entry.now)) }
{
    if is_pattern_entry(entry) {
        return push_pattern(alloc, items, dir, paths, entry);
    }
    items.push(entry.copy()?)?;
    Ok(())
}

fn push_pattern(
    alloc: Global,
    items: &mut List<Item>,
    dir: &str,
    paths: &SortedPaths<'_, Text>,
    entry: &Item,
) -> Result<(), Failure>
    ensures { GivesAs (λ _. items.new) result
        (map_ok (λ more. items.old ++ more)
        (map_ok (items_matched paths.now entry.now)
        (pattern_in dir.now (codes "include") entry.now))) }
{
    let pattern = pattern_in(alloc, dir, "include", entry)?;
    push_matches(alloc, items, paths, entry, &pattern)?;
    Ok(())
}

fn push_matches(
    alloc: Global,
    items: &mut List<Item>,
    paths: &SortedPaths<'_, Text>,
    entry: &Item,
    pattern: &Pattern,
) -> Result<(), NoMemory>
    ensures { OnOk result (items.new ≡ items.old ++ items_matched paths.now entry.now pattern.now) }
{
    match expand_in(alloc, paths, pattern) {
        Ok(matches) => push_each(alloc, items, entry, matches.as_slice()),
        Err(_) => Err(NoMemory),
    }
}

fn push_each(
    alloc: Global,
    items: &mut List<Item>,
    entry: &Item,
    matches: &[Match],
) -> Result<(), NoMemory>
    ensures { OnOk result (items.new ≡ items.old ++ map (item_matched entry.now) matches.now) }
{
    for found in matches {
        items.push(matched_item(alloc, entry, found)?)?;
    }
    Ok(())
}

/// What a match makes of its entry, without escapes.
fn matched_item(alloc: Global, entry: &Item, found: &Match) -> Result<Item, NoMemory>
    ensures { IfOk result (λ item. item ≡ item_matched entry.now found.now) }
{
    Ok(Item {
        ident: unescape(alloc, found.ident.as_str())?,
        recursive: Text::of(alloc, found.recursive.as_str())?,
        meta: entry.meta.copy()?,
    })
}

fn with_all_metadata(
    alloc: Global,
    metadata: &[(Name, Text)],
    items: Vec<Item>,
) -> Result<List<Item>, NoMemory>
    ensures { IfOk result (λ changed. changed ≡ map (with_metadata metadata.now) items.items) }
{
    let mut changed = List::new(alloc);
    for item in items {
        changed.push(with_metadata(metadata, item)?)?;
    }
    Ok(changed)
}

fn with_metadata(metadata: &[(Name, Text)], item: Item) -> Result<Item, NoMemory>
    ensures { IfOk result (λ changed. changed ≡ with_metadata metadata.now item) }
{
    let mut changed = item;
    put_all(&mut changed.meta, metadata)?;
    Ok(changed)
}

fn put_all(meta: &mut Pairs, metadata: &[(Name, Text)]) -> Result<(), NoMemory>
    ensures { OnOk result (meta.new ≡ all_put meta.old metadata.now) }
{
    for (name, value) in metadata {
        meta.insert(name.copy()?, value.copy()?)?;
    }
    Ok(())
}
