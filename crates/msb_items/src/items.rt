ghost use Rattle.std.specs.Prelude.{◌≡◌, ◌++◌, map, true, Some, OnOk, option_and_then};
ghost use Rattle.file_store.specs.Files.{paths_of};
ghost use Rattle.build_world.specs.Answers.{GivesFault};
ghost use Rattle.build_world.specs.Elements.{children_of, seen_element, seen_placed};
ghost use Rattle.msb_glob.specs.FoldedNames.{seen_names};
ghost use Rattle.msb_items.specs.Answers.{Changes};
ghost use Rattle.msb_items.specs.Items.{
  all_itemed,
  included,
  item_if,
  item_named,
  itemed_by,
  list_of,
  removed,
  updated,
  with_item,
  with_items,
  with_list,
};
ghost use Rattle.msb_items.specs.FoldedNames.{unnamed_by};
ghost use Rattle.element_texts.specs.Contexts.{after_each, element_holds};
ghost use Rattle.msb_items.specs.Replaced.{or_item, replaced};
ghost use Rattle.msb_items.specs.Seen.{items_in};

use crate::changes::{ItemElement, names_at, new_items, update_replacements};
use crate::item_names::keep_unnamed;
use crate::project_files::{ItemFiles, ProjectFiles, project_path};
use build_world::{EvalFault, LaidOut, Placed, PlacedElement};
use element_texts::ElementContext;
use file_store::Tree;
use msb_glob::{ItemNames, SortedPaths};
use msb_paths::Present;
use msb_values::{Copied, Item, List, Name, NoMemory, Scope, SharedItems};
use std::alloc::Global;

/// Takes the items of a laid-out project in order, with the properties and the defaults of the
/// scope; or the first fault, with the file and the place of its element, after which nothing is
/// said of the scope. (MSBuild items.)
pub fn item_pass(
    alloc: Global,
    tree: &Tree,
    laid: &LaidOut,
    scope: &mut Scope,
) -> Result<(), EvalFault>
    ensures { Changes result scope.new
        (all_itemed (paths_of tree.now.files) scope.old (map seen_placed laid.now.elements.items)) }
{
    let elements = laid.elements.as_slice();
    let source = ItemFiles {
        source: ProjectFiles {
            files: tree,
            project: project_path(elements),
        },
        paths: SortedPaths::of_tree(tree),
    };
    take_all(alloc, &source, elements, scope)
}

fn take_all<F: Present>(
    alloc: Global,
    source: &ItemFiles<'_, F>,
    elements: &[Placed],
    scope: &mut Scope,
) -> Result<(), EvalFault>
    ensures { Changes result scope.new
        (after_each itemed_by (items_in F.files source.now.source scope.old)
        (map seen_placed elements.now)) }
{
    for placed in elements {
        take(alloc, source, &PlacedElement::of(placed), scope)?;
    }
    Ok(())
}

/// What an element of a project does to the items: a group's elements, and nothing else.
fn take<F: Present>(
    alloc: Global,
    source: &ItemFiles<'_, F>,
    element: &PlacedElement<'_>,
    scope: &mut Scope,
) -> Result<(), EvalFault>
    ensures { Changes result scope.new
        (itemed_by (items_in F.files source.now.source scope.old) (seen_element element.now)) }
{
    if element.element.name() == "ItemGroup" {
        return take_group(alloc, source, element, scope);
    }
    Ok(())
}

/// The elements of an ItemGroup. (ItemGroup element.)
fn take_group<F: Present>(
    alloc: Global,
    source: &ItemFiles<'_, F>,
    element: &PlacedElement<'_>,
    scope: &mut Scope,
) -> Result<(), EvalFault>
    ensures { Changes result scope.new
        (with_items (items_in F.files source.now.source scope.old) (seen_element element.now)) }
{
    if holds(alloc, &source.source, element, scope)? {
        return take_children(alloc, source, element, scope);
    }
    Ok(())
}

/// Whether the Condition of an element holds.
fn holds<F: Present>(
    alloc: Global,
    source: &ProjectFiles<'_, F>,
    element: &PlacedElement<'_>,
    scope: &Scope,
) -> Result<bool, EvalFault>
    ensures { GivesFault (λ holds. holds) result
        (element_holds (items_in F.files source.now scope.now) (seen_element element.now)) }
{
    ElementContext::of_items(source.files, source.project, scope).element_holds(alloc, element)
}

fn take_children<F: Present>(
    alloc: Global,
    source: &ItemFiles<'_, F>,
    element: &PlacedElement<'_>,
    scope: &mut Scope,
) -> Result<(), EvalFault>
    ensures { Changes result scope.new
        (after_each with_item (items_in F.files source.now.source scope.old)
        (children_of (seen_element element.now))) }
{
    for child in element.element.children() {
        take_item(alloc, source, &element.child(child), scope)?;
    }
    Ok(())
}

/// An item element. (Item element.)
fn take_item<F: Present>(
    alloc: Global,
    source: &ItemFiles<'_, F>,
    element: &PlacedElement<'_>,
    scope: &mut Scope,
) -> Result<(), EvalFault>
    ensures { Changes result scope.new
        (with_item (items_in F.files source.now.source scope.old) (seen_element element.now)) }
{
    if holds(alloc, &source.source, element, scope)? {
        return take_kind(alloc, source, element, scope);
    }
    Ok(())
}

fn take_kind<F: Present>(
    alloc: Global,
    source: &ItemFiles<'_, F>,
    element: &PlacedElement<'_>,
    scope: &mut Scope,
) -> Result<(), EvalFault>
    ensures { Changes result scope.new
        (item_if true (items_in F.files source.now.source scope.old) (seen_element element.now)) }
{
    match Name::look_up(alloc, element.element.name())? {
        Some(kind) => {
            let element = ItemElement {
                kind: &kind,
                at: *element,
            };
            change(alloc, source, &element, scope)
        }
        None => Ok(()),
    }
}

fn change<F: Present>(
    alloc: Global,
    source: &ItemFiles<'_, F>,
    element: &ItemElement<'_>,
    scope: &mut Scope,
) -> Result<(), EvalFault>
    ensures { Changes result scope.new
        (item_named (Some element.now.kind.now) (items_in F.files source.now.source scope.old)
        (seen_element element.now.at)) }
{
    if let Some(written) = element.at.element.attribute("Include") {
        return include(alloc, source, element, written, scope);
    }
    if let Some(written) = element.at.element.attribute("Remove") {
        return remove(alloc, &source.source, element, written, scope);
    }
    match element.at.element.attribute("Update") {
        Some(written) => update(alloc, &source.source, element, written, scope),
        None => Ok(()),
    }
}

fn include<F: Present>(
    alloc: Global,
    source: &ItemFiles<'_, F>,
    element: &ItemElement<'_>,
    written: &str,
    scope: &mut Scope,
) -> Result<(), EvalFault>
    ensures { Changes result scope.new
        (included (items_in F.files source.now.source scope.old) element.now.kind.now
        (seen_element element.now.at) written.now) }
{
    let context = ElementContext::of_items(source.source.files, source.source.project, scope);
    let items = new_items(alloc, &context, &source.paths, element, written)?;
    append(alloc, scope, element.kind, items)?;
    Ok(())
}

fn remove<F: Present>(
    alloc: Global,
    source: &ProjectFiles<'_, F>,
    element: &ItemElement<'_>,
    written: &str,
    scope: &mut Scope,
) -> Result<(), EvalFault>
    ensures { Changes result scope.new
        (removed (items_in F.files source.now scope.old) element.now.kind.now
        (seen_element element.now.at) written.now) }
{
    let context = ElementContext::of_items(source.files, source.project, scope);
    let names = names_at(alloc, &context, &element.at, written)?;
    Ok(remove_named(alloc, source.project, &names, element.kind, scope)?)
}

/// Takes the named items away from those of their type; the others move.
fn remove_named(
    alloc: Global,
    project: &str,
    names: &ItemNames,
    kind: &Name,
    scope: &mut Scope,
) -> Result<(), NoMemory>
    ensures { OnOk result
        (scope.new ≡ with_list scope.old kind.now
        (unnamed_by project.now (seen_names names.now) (list_of scope.old kind.now))) }
{
    let list = scope
        .items
        .replace(kind, SharedItems::none())?
        .into_list(alloc)?;
    let kept = keep_unnamed(alloc, project, names, list.into_vec())?;
    put_list(alloc, scope, kind, List::from(kept))
}

fn update<F: Present>(
    alloc: Global,
    source: &ProjectFiles<'_, F>,
    element: &ItemElement<'_>,
    written: &str,
    scope: &mut Scope,
) -> Result<(), EvalFault>
    ensures { Changes result scope.new
        (updated (items_in F.files source.now scope.old) element.now.kind.now
        (seen_element element.now.at) written.now) }
{
    let context = ElementContext::of_items(source.files, source.project, scope);
    let replacements = update_replacements(alloc, &context, element, written)?;
    Ok(replace_in(alloc, scope, element.kind, replacements)?)
}

/// Puts what replaces items of a type in their places; the others stay where they are.
fn replace_in(
    alloc: Global,
    scope: &mut Scope,
    kind: &Name,
    replacements: Vec<Option<Item>>,
) -> Result<(), NoMemory>
    ensures { OnOk result
        (scope.new ≡ with_list scope.old kind.now
        (replaced (list_of scope.old kind.now) replacements.items)) }
{
    let list = scope
        .items
        .replace(kind, SharedItems::none())?
        .into_list(alloc)?;
    let mut items = list.into_vec();
    put_all(&mut items, replacements);
    put_list(alloc, scope, kind, List::from(items))
}

/// Puts items in the place of those of their type.
fn put_list(
    alloc: Global,
    scope: &mut Scope,
    kind: &Name,
    items: List<Item>,
) -> Result<(), NoMemory>
    ensures { OnOk result (scope.new ≡ with_list scope.old kind.now items) }
{
    let items = SharedItems::of(alloc, items)?;
    scope.items.insert(kind.copy()?, items)
}

fn put_all(items: &mut [Item], replacements: Vec<Option<Item>>)
    ensures { items.new ≡ replaced items.old replacements.items }
{
    let mut replacements = replacements.into_iter();
    for item in items.iter_mut() {
        put(item, replacements.next());
    }
}

/// Puts what replaces an item in its context, if something does.
fn put(item: &mut Item, replacement: Option<Option<Item>>)
    ensures { item.new ≡ or_item (option_and_then (λ changed. changed) replacement) item.old }
{
    if let Some(Some(changed)) = replacement {
        *item = changed;
    }
}

/// Puts items behind those of their type, in a time that grows with the number of new ones.
fn append(alloc: Global, scope: &mut Scope, kind: &Name, new: Vec<Item>) -> Result<(), NoMemory>
    ensures { OnOk result
        (scope.new ≡ with_list scope.old kind.now (list_of scope.old kind.now ++ new.items)) }
{
    let mut items = scope.items.replace(kind, SharedItems::none())?;
    items.append(alloc, List::from(new))?;
    scope.items.insert(kind.copy()?, items)
}
