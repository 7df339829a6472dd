ghost use Rattle.std.specs.Prelude.{
  ◌≡◌,
  map,
  filter,
  true,
  false,
  codes,
  Some,
  None,
  IfOk,
  option_copied,
  option_to_list,
};
ghost use Rattle.msb_laws.specs.Results.{and_then, map_ok};
ghost use Rattle.msb_values.specs.Caused.{GivesCause};
ghost use Rattle.msb_values.specs.Escapes.{unescaped};
ghost use Rattle.msb_values.specs.declared.change.Change.TheVariants.{AddItems, RemoveItems};
ghost use Rattle.build_world.specs.Answers.{GivesFault};
ghost use Rattle.build_world.specs.Elements.{attribute_of, seen_element};
ghost use Rattle.msb_glob.specs.FoldedNames.{seen_names};
ghost use Rattle.msb_items.specs.FoldedNames.{is_named_by};
ghost use Rattle.element_texts.specs.Contexts.{items_seen};
ghost use Rattle.element_texts.specs.Seen.{context_of};
ghost use Rattle.msb_items.specs.Truths.{truth_or};
ghost use Rattle.msb_items.specs.TargetItems.{
  added_items,
  change_by,
  item_changes,
  keeps_repeats,
  less_repeats,
  less_repeats_if,
  metadata_set,
  named_items,
  pairs_for,
  pairs_written,
  source_items,
  with_pairs,
};

use crate::changes::{apply_exclude, names_at, target_items_at};
use crate::files::ListedFiles;
use crate::item_names::is_named;
use crate::metadata::{Kind, metadata_on, no_item};
use crate::pairs::put_pairs;
use crate::repeats::without_repeats;
use crate::transfer::Transfer;
use crate::truths::truth_or;
use crate::updates::set_metadata;
use build_world::{EvalFault, PlacedElement};
use element_texts::ElementContext;
use msb_glob::ItemNames;
use msb_paths::Present;
use msb_values::{Cause, Change, Copied, Item, List, Name, NoMemory, Pairs, Text, unescape};
use std::alloc::Global;

/// What an item element in a target changes in a bucket, if its Condition holds. (Item element.)
pub(crate) fn item_change<F: ListedFiles>(
    alloc: Global,
    context: &ElementContext<'_, F>,
    kind: &Name,
    element: &PlacedElement<'_>,
) -> Result<Option<Change>, EvalFault>
    ensures { GivesFault option_to_list result
        (item_changes kind.now (context_of F.files context.now) (seen_element element.now)) }
{
    if context.element_holds(alloc, element)? {
        return Ok(Some(change(alloc, context, kind, element)?));
    }
    Ok(None)
}

/// What an element changes by its Include, its Remove or its Update, or by none of them.
fn change<F: ListedFiles>(
    alloc: Global,
    context: &ElementContext<'_, F>,
    kind: &Name,
    element: &PlacedElement<'_>,
) -> Result<Change, EvalFault>
    ensures { GivesFault (λ change. change) result
        (change_by (context_of F.files context.now) kind.now (seen_element element.now)
        (attribute_of (codes "Include") (seen_element element.now))
        (attribute_of (codes "Remove") (seen_element element.now))
        (attribute_of (codes "Update") (seen_element element.now))) }
{
    if let Some(include) = element.element.attribute("Include") {
        return include_change(alloc, context, kind, element, include);
    }
    if let Some(remove) = element.element.attribute("Remove") {
        return remove_change(alloc, context, kind, element, remove);
    }
    match element.element.attribute("Update") {
        Some(update) => update_change(alloc, context, kind, element, update),
        None => change_all(alloc, context, kind, element),
    }
}

/// Include adds items.
fn include_change<F: ListedFiles>(
    alloc: Global,
    context: &ElementContext<'_, F>,
    kind: &Name,
    element: &PlacedElement<'_>,
    include: &str,
) -> Result<Change, EvalFault>
    ensures { GivesFault (λ change. change) result
        (map_ok (AddItems kind.now)
        (added_items (context_of F.files context.now) kind.now (seen_element element.now)
        include.now)) }
{
    let items = source_items(alloc, context, element, include)?;
    let items = with_pairs(alloc, context, kind, element, items)?;
    let items = remove_repeats(alloc, context, kind, element, items)?;
    let kind = kind.copy()?;
    Ok(Change::AddItems(kind, List::from(items)))
}

/// The items of the entries of an Include less those that Exclude names, with the metadata that
/// they keep.
fn source_items<F: ListedFiles>(
    alloc: Global,
    context: &ElementContext<'_, F>,
    element: &PlacedElement<'_>,
    include: &str,
) -> Result<Vec<Item>, EvalFault>
    ensures { GivesFault (λ items. items.items) result
        (source_items (context_of F.files context.now) (seen_element element.now) include.now) }
{
    let items = target_items_at(alloc, context, element, include)?;
    let exclude = element.element.attribute("Exclude");
    let mut items = apply_exclude(alloc, context, element, exclude, items)?;
    let transfer = Transfer::of(alloc, context, element)?;
    transfer.apply(alloc, &mut items)?;
    Ok(items)
}

/// Some items with the metadata that are written on the element.
fn with_pairs<F: Present>(
    alloc: Global,
    context: &ElementContext<'_, F>,
    kind: &Name,
    element: &PlacedElement<'_>,
    items: Vec<Item>,
) -> Result<Vec<Item>, EvalFault>
    ensures { GivesFault (λ items. items.items) result
        (with_pairs (context_of F.files context.now) kind.now (seen_element element.now)
        items.items) }
{
    let pairs = pairs_for(alloc, context, kind, element, &items)?;
    let mut items = items;
    put_pairs(&mut items, &pairs)?;
    Ok(items)
}

/// The metadata that are written on the element, if there is an item that gets them.
fn pairs_for<F: Present>(
    alloc: Global,
    context: &ElementContext<'_, F>,
    kind: &Name,
    element: &PlacedElement<'_>,
    items: &[Item],
) -> Result<Pairs, EvalFault>
    ensures { GivesFault (λ pairs. pairs) result
        (pairs_for (context_of F.files context.now) kind.now (seen_element element.now) items.now) }
{
    if items.is_empty() {
        return Ok(Pairs::new(alloc));
    }
    pairs_on(alloc, context, kind, element)
}

fn pairs_on<F: Present>(
    alloc: Global,
    context: &ElementContext<'_, F>,
    kind: &Name,
    element: &PlacedElement<'_>,
) -> Result<Pairs, EvalFault>
    ensures { GivesFault (λ pairs. pairs) result
        (pairs_written (context_of F.files context.now) kind.now (seen_element element.now)) }
{
    let written = metadata_on(alloc, Kind::TargetItem, element)?;
    let mut item = no_item(alloc);
    set_metadata(alloc, context, kind, &written, &mut item)?;
    let (_, _, meta) = item.parts();
    Ok(meta)
}

/// Some items less those that are there already, unless the element keeps them.
fn remove_repeats<F: Present>(
    alloc: Global,
    context: &ElementContext<'_, F>,
    kind: &Name,
    element: &PlacedElement<'_>,
    items: Vec<Item>,
) -> Result<Vec<Item>, EvalFault>
    ensures { GivesFault (λ items. items.items) result
        (less_repeats (context_of F.files context.now) kind.now (seen_element element.now)
        items.items) }
{
    let keep = element.element.attribute("KeepDuplicates");
    if keeps_repeats(alloc, context, element, keep)? {
        return Ok(items);
    }
    Ok(unseen_items(alloc, context, kind, items)?)
}

/// The items that the bucket does not see already.
fn unseen_items<F: Present>(
    alloc: Global,
    context: &ElementContext<'_, F>,
    kind: &Name,
    items: Vec<Item>,
) -> Result<Vec<Item>, NoMemory>
    ensures { IfOk result (λ kept. kept.items
        ≡ less_repeats_if false (context_of F.files context.now) kind.now items.items) }
{
    let there = context.items(kind);
    match context.scope.defaults.get(kind) {
        Some(defaults) => without_repeats(alloc, defaults, there, items),
        None => without_repeats(alloc, &Pairs::new(alloc), there, items),
    }
}

fn keeps_repeats<F: Present>(
    alloc: Global,
    context: &ElementContext<'_, F>,
    element: &PlacedElement<'_>,
    written: Option<&str>,
) -> Result<bool, EvalFault>
    ensures { GivesFault (λ keeps. keeps) result
        (keeps_repeats (context_of F.files context.now) (seen_element element.now)
        (option_copied written.entry)) }
{
    let Some(written) = written else {
        return Ok(true);
    };
    let text = context.text(alloc, element, written)?;
    match truth_of_escaped(alloc, true, text.as_str()) {
        Ok(keeps) => Ok(keeps),
        Err(cause) => Err(element.fault(alloc, cause)),
    }
}

/// Remove takes the items away that it names.
fn remove_change<F: Present>(
    alloc: Global,
    context: &ElementContext<'_, F>,
    kind: &Name,
    element: &PlacedElement<'_>,
    remove: &str,
) -> Result<Change, EvalFault>
    ensures { GivesFault (λ change. change) result
        (map_ok (λ items. RemoveItems kind.now (map (λ item. item.ident) items))
        (named_items (context_of F.files context.now) kind.now (seen_element element.now)
        remove.now)) }
{
    let items = named_items(alloc, context, kind, element, remove)?;
    Ok(removal(alloc, kind, &items)?)
}

fn removal(alloc: Global, kind: &Name, items: &[&Item]) -> Result<Change, NoMemory>
    ensures { IfOk result
        (λ change. change ≡ RemoveItems kind.now
        (map (λ item. item.ident) (map (λ item. item.now) items.now))) }
{
    let idents = idents_of(alloc, items)?;
    Ok(Change::RemoveItems(kind.copy()?, idents))
}

fn idents_of(alloc: Global, items: &[&Item]) -> Result<List<Text>, NoMemory>
    ensures { IfOk result
        (λ idents. idents ≡ map (λ item. item.ident) (map (λ item. item.now) items.now)) }
{
    let mut idents = List::new(alloc);
    for item in items {
        idents.push(item.ident.copy()?)?;
    }
    Ok(idents)
}

/// Update changes the metadata of the items that it names.
fn update_change<F: Present>(
    alloc: Global,
    context: &ElementContext<'_, F>,
    kind: &Name,
    element: &PlacedElement<'_>,
    update: &str,
) -> Result<Change, EvalFault>
    ensures { GivesFault (λ change. change) result
        (and_then
        (named_items (context_of F.files context.now) kind.now (seen_element element.now)
        update.now)
        (metadata_set (context_of F.files context.now) kind.now (seen_element element.now))) }
{
    let items = named_items(alloc, context, kind, element, update)?;
    let items = copies_of(alloc, &items)?;
    metadata_change(alloc, context, kind, element, items)
}

fn copies_of(alloc: Global, items: &[&Item]) -> Result<List<Item>, NoMemory>
    ensures { IfOk result (λ copies. copies ≡ map (λ item. item.now) items.now) }
{
    let mut copies = List::new(alloc);
    for item in items {
        copies.push(item.copy()?)?;
    }
    Ok(copies)
}

/// The items that the bucket sees and the entries of an attribute name.
fn named_items<'s, F: Present>(
    alloc: Global,
    context: &'s ElementContext<'_, F>,
    kind: &Name,
    element: &PlacedElement<'_>,
    written: &str,
) -> Result<Vec<&'s Item>, EvalFault>
    ensures { GivesFault (λ items. map (λ item. item.now) items.items) result
        (named_items (context_of F.files context.now) kind.now (seen_element element.now)
        written.now) }
{
    let names = names_at(alloc, context, element, written)?;
    Ok(find_named(alloc, context.project, &names, context.items(kind))?)
}

fn find_named<'s>(
    alloc: Global,
    project: &str,
    names: &ItemNames,
    items: &'s [Item],
) -> Result<Vec<&'s Item>, NoMemory>
    ensures { IfOk result (λ named. map (λ item. item.now) named.items
        ≡ filter (is_named_by project.now (seen_names names.now)) items.now) }
{
    let mut named = Vec::new(alloc);
    for item in items {
        if is_named(alloc, project, names, item)? {
            named.push(item)?;
        }
    }
    Ok(named)
}

/// An element with neither changes the metadata of all items that the bucket sees.
fn change_all<F: Present>(
    alloc: Global,
    context: &ElementContext<'_, F>,
    kind: &Name,
    element: &PlacedElement<'_>,
) -> Result<Change, EvalFault>
    ensures { GivesFault (λ change. change) result
        (metadata_set (context_of F.files context.now) kind.now (seen_element element.now)
        (items_seen (context_of F.files context.now) kind.now)) }
{
    let items = List::of(alloc, context.items(kind))?;
    metadata_change(alloc, context, kind, element, items)
}

/// These items get the metadata that are written on the element.
fn metadata_change<F: Present>(
    alloc: Global,
    context: &ElementContext<'_, F>,
    kind: &Name,
    element: &PlacedElement<'_>,
    items: List<Item>,
) -> Result<Change, EvalFault>
    ensures { GivesFault (λ change. change) result
        (metadata_set (context_of F.files context.now) kind.now (seen_element element.now) items) }
{
    let pairs = pairs_for(alloc, context, kind, element, items.as_slice())?;
    let kind = kind.copy()?;
    Ok(Change::SetMeta(kind, items, pairs))
}

fn truth_of_escaped(alloc: Global, default: bool, text: &str) -> Result<bool, Cause>
    ensures { GivesCause result (truth_or default (unescaped text.now)) }
{
    let plain = unescape(alloc, text)?;
    truth_or(alloc, default, plain.as_str())
}
