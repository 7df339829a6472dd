ghost use Rattle.std.specs.Prelude.{◌≡◌, option_copied};
ghost use Rattle.msb_laws.specs.Results.{and_then, map_ok};
ghost use Rattle.build_world.specs.Answers.{GivesFault};
ghost use Rattle.build_world.specs.Elements.{seen_element};
ghost use Rattle.msb_glob.specs.FoldedNames.{folded_names, seen_names};
ghost use Rattle.msb_items.specs.Items.{
  items_at,
  less_excluded,
  list_of,
  names_at,
  new_items,
  unnamed,
};
ghost use Rattle.msb_items.specs.ItemNames.{is_named};
ghost use Rattle.msb_items.specs.Metadata.{item_attributes, metadata_on};
ghost use Rattle.msb_items.specs.Replaced.{replacements_of};
ghost use Rattle.element_texts.specs.Seen.{context_of};

use crate::entries::{all_items, items_by};
use crate::files::ListedFiles;
use crate::item_names::{keep_unnamed, names_of};
use crate::metadata::{Kind, metadata_on};
use crate::updates::{GivenMetadata, replacements, with_metadata};
use build_world::{EvalFault, PlacedElement};
use element_texts::ElementContext;
use file_store::File;
use msb_glob::{ItemNames, SortedPaths};
use msb_paths::Present;
use msb_values::{Item, Name, Scope};
use std::alloc::Global;

/// An item element, and the item type that it names.
#[derive(Clone, Copy)]
pub(crate) struct ItemElement<'a> {
    pub(crate) kind: &'a Name,
    pub(crate) at: PlacedElement<'a>,
}

/// The items that an Include adds, less those that Exclude names, with the metadata that are
/// written on the element. (MSBuild items.)
pub(crate) fn new_items<F: Present>(
    alloc: Global,
    context: &ElementContext<'_, F>,
    paths: &SortedPaths<'_, File>,
    element: &ItemElement<'_>,
    include: &str,
) -> Result<Vec<Item>, EvalFault>
    requires { paths.now ≡ F.files context.now.files.now }
    ensures { GivesFault (λ items. items.items) result
        (new_items (context_of F.files context.now) element.now.kind.now
        (seen_element element.now.at) include.now) }
{
    let items = items_at(alloc, context, paths, &element.at, include)?;
    let exclude = element.at.element.attribute("Exclude");
    let items = apply_exclude(alloc, context, &element.at, exclude, items)?;
    let written = metadata_on(alloc, Kind::Item, &element.at)?;
    let given = GivenMetadata {
        kind: element.kind,
        written,
    };
    with_metadata(alloc, context, &given, items)
}

/// The items of the entries of an Include.
fn items_at<F: Present>(
    alloc: Global,
    context: &ElementContext<'_, F>,
    paths: &SortedPaths<'_, File>,
    element: &PlacedElement<'_>,
    include: &str,
) -> Result<Vec<Item>, EvalFault>
    requires { paths.now ≡ F.files context.now.files.now }
    ensures { GivesFault (λ items. items.items) result
        (items_at (context_of F.files context.now) (seen_element element.now) include.now) }
{
    let entries = context.entries(alloc, element, include)?;
    match all_items(alloc, paths, context.project, entries.as_slice()) {
        Ok(items) => Ok(items),
        Err(cause) => Err(element.fault(alloc, cause)),
    }
}

/// The items of the entries of an Include in a target.
pub(crate) fn target_items_at<F: ListedFiles>(
    alloc: Global,
    context: &ElementContext<'_, F>,
    element: &PlacedElement<'_>,
    include: &str,
) -> Result<Vec<Item>, EvalFault>
    ensures { GivesFault (λ items. items.items) result
        (items_at (context_of F.files context.now) (seen_element element.now) include.now) }
{
    let entries = context.entries(alloc, element, include)?;
    match items_by(alloc, context.files, context.project, entries.as_slice()) {
        Ok(items) => Ok(items),
        Err(cause) => Err(element.fault(alloc, cause)),
    }
}

pub(crate) fn apply_exclude<F: Present>(
    alloc: Global,
    context: &ElementContext<'_, F>,
    element: &PlacedElement<'_>,
    exclude: Option<&str>,
    items: Vec<Item>,
) -> Result<Vec<Item>, EvalFault>
    ensures { GivesFault (λ items. items.items) result
        (less_excluded (context_of F.files context.now) (seen_element element.now)
        (option_copied exclude.entry) items.items) }
{
    match exclude {
        None => Ok(items),
        Some(exclude) => remove_excluded(alloc, context, element, exclude, items),
    }
}

/// The items that the entries of an Exclude do not name.
fn remove_excluded<F: Present>(
    alloc: Global,
    context: &ElementContext<'_, F>,
    element: &PlacedElement<'_>,
    exclude: &str,
    items: Vec<Item>,
) -> Result<Vec<Item>, EvalFault>
    ensures { GivesFault (λ items. items.items) result
        (map_ok (unnamed context.now.project.now items.items)
        (names_at (context_of F.files context.now) (seen_element element.now) exclude.now)) }
{
    let names = names_at(alloc, context, element, exclude)?;
    Ok(keep_unnamed(alloc, context.project, &names, items)?)
}

/// What the entries of an attribute name.
pub(crate) fn names_at<F: Present>(
    alloc: Global,
    context: &ElementContext<'_, F>,
    element: &PlacedElement<'_>,
    written: &str,
) -> Result<ItemNames, EvalFault>
    ensures { GivesFault seen_names result
        (map_ok folded_names
        (names_at (context_of F.files context.now) (seen_element element.now) written.now)) }
{
    let entries = context.entries(alloc, element, written)?;
    match names_of(alloc, context.project, entries.as_slice()) {
        Ok(names) => Ok(names),
        Err(cause) => Err(element.fault(alloc, cause)),
    }
}

/// What each item of a type becomes that an Update names: a copy with the metadata that are written
/// on the element. (MSBuild items.)
pub(crate) fn update_replacements<F: Present>(
    alloc: Global,
    context: &ElementContext<'_, F>,
    element: &ItemElement<'_>,
    update: &str,
) -> Result<Vec<Option<Item>>, EvalFault>
    ensures { GivesFault (λ replacements. replacements.items) result
        (and_then
        (names_at (context_of F.files context.now) (seen_element element.now.at) update.now)
        (λ names. replacements_of (context_of F.files context.now) element.now.kind.now
        (metadata_on item_attributes (seen_element element.now.at))
        (is_named context.now.project.now names)
        (list_of context.now.scope.now element.now.kind.now))) }
{
    let names = names_at(alloc, context, &element.at, update)?;
    let written = metadata_on(alloc, Kind::Item, &element.at)?;
    let given = GivenMetadata {
        kind: element.kind,
        written,
    };
    let items = list_of(context.scope, element.kind);
    replacements(alloc, context, &given, &names, items)
}

fn list_of<'a>(scope: &'a Scope, kind: &Name) -> &'a [Item]
    ensures { result.now ≡ list_of scope.now kind.now }
{
    match scope.items.get(kind) {
        Some(items) => items.as_slice(),
        None => &[],
    }
}
