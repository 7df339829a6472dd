ghost use Rattle.std.specs.Prelude.{◌≡◌, map, true, Some, OnOk};
ghost use Rattle.file_store.specs.Files.{paths_of};
ghost use Rattle.build_world.specs.Elements.{children_of, seen_element, seen_placed};
ghost use Rattle.msb_items.specs.Answers.{Changes};
ghost use Rattle.msb_items.specs.Definitions.{
  all_defined,
  defined_by,
  definition_if,
  with_default,
  with_default_written,
  with_defaults_written,
  with_definition,
  with_definitions,
};
ghost use Rattle.element_texts.specs.Contexts.{after_each};
ghost use Rattle.msb_items.specs.Seen.{definitions_in, metadata_of};

use crate::metadata::{Kind, WrittenMetadata, metadata_on, no_item};
use crate::project_files::{ProjectFiles, project_path};
use build_world::{EvalFault, LaidOut, Placed, PlacedElement};
use element_texts::ElementContext;
use file_store::Tree;
use msb_paths::Present;
use msb_values::{Copied, Name, NoMemory, Pairs, Scope, Text};
use std::alloc::Global;

/// Takes the item definitions of a laid-out project in order, with the properties of the scope; or
/// the first fault, with the file and the place of its element, after which nothing is said of the
/// scope. (Item definitions.)
pub fn definition_pass(
    alloc: Global,
    tree: &Tree,
    laid: &LaidOut,
    scope: &mut Scope,
) -> Result<(), EvalFault>
    ensures { Changes result scope.new
        (all_defined (paths_of tree.now.files) scope.old
        (map seen_placed laid.now.elements.items)) }
{
    let elements = laid.elements.as_slice();
    let source = ProjectFiles {
        files: tree,
        project: project_path(elements),
    };
    define_all(alloc, &source, elements, scope)
}

fn define_all<F: Present>(
    alloc: Global,
    source: &ProjectFiles<'_, F>,
    elements: &[Placed],
    scope: &mut Scope,
) -> Result<(), EvalFault>
    ensures { Changes result scope.new
        (after_each defined_by (definitions_in F.files source.now scope.old)
        (map seen_placed elements.now)) }
{
    for placed in elements {
        define_by(alloc, source, &PlacedElement::of(placed), scope)?;
    }
    Ok(())
}

/// What an element of a project defines: a group's definitions, and nothing else.
fn define_by<F: Present>(
    alloc: Global,
    source: &ProjectFiles<'_, F>,
    element: &PlacedElement<'_>,
    scope: &mut Scope,
) -> Result<(), EvalFault>
    ensures { Changes result scope.new
        (defined_by (definitions_in F.files source.now scope.old) (seen_element element.now)) }
{
    if element.element.name() == "ItemDefinitionGroup" {
        return define_group(alloc, source, element, scope);
    }
    Ok(())
}

/// The definitions of an ItemDefinitionGroup. (ItemDefinitionGroup element.)
fn define_group<F: Present>(
    alloc: Global,
    source: &ProjectFiles<'_, F>,
    element: &PlacedElement<'_>,
    scope: &mut Scope,
) -> Result<(), EvalFault>
    ensures { Changes result scope.new
        (with_definitions (definitions_in F.files source.now scope.old)
        (seen_element element.now)) }
{
    if ElementContext::of_definitions(source.files, source.project, scope).element_holds(
        alloc, element,
    )? {
        return define_children(alloc, source, element, scope);
    }
    Ok(())
}

fn define_children<F: Present>(
    alloc: Global,
    source: &ProjectFiles<'_, F>,
    element: &PlacedElement<'_>,
    scope: &mut Scope,
) -> Result<(), EvalFault>
    ensures { Changes result scope.new
        (after_each with_definition (definitions_in F.files source.now scope.old)
        (children_of (seen_element element.now))) }
{
    for child in element.element.children() {
        define(alloc, source, &element.child(child), scope)?;
    }
    Ok(())
}

/// A definition element. (Item definitions.)
fn define<F: Present>(
    alloc: Global,
    source: &ProjectFiles<'_, F>,
    element: &PlacedElement<'_>,
    scope: &mut Scope,
) -> Result<(), EvalFault>
    ensures { Changes result scope.new
        (with_definition (definitions_in F.files source.now scope.old) (seen_element element.now)) }
{
    if ElementContext::of_definitions(source.files, source.project, scope).element_holds(
        alloc, element,
    )? {
        return define_kind(alloc, source, element, scope);
    }
    Ok(())
}

fn define_kind<F: Present>(
    alloc: Global,
    source: &ProjectFiles<'_, F>,
    element: &PlacedElement<'_>,
    scope: &mut Scope,
) -> Result<(), EvalFault>
    ensures { Changes result scope.new
        (definition_if true (definitions_in F.files source.now scope.old)
        (seen_element element.now)) }
{
    let Some(kind) = Name::look_up(alloc, element.element.name())? else {
        return Ok(());
    };
    let written = metadata_on(alloc, Kind::Definition, element)?;
    set_defaults(alloc, source, &kind, &written, scope)
}

/// Sets the defaults of a type, each of which sees those ahead of it.
fn set_defaults<F: Present>(
    alloc: Global,
    source: &ProjectFiles<'_, F>,
    kind: &Name,
    written: &[WrittenMetadata<'_>],
    scope: &mut Scope,
) -> Result<(), EvalFault>
    ensures { Changes result scope.new
        (with_defaults_written kind.now (definitions_in F.files source.now scope.old)
        (map metadata_of written.now)) }
{
    for metadata in written {
        set_default_written(alloc, source, kind, metadata, scope)?;
    }
    Ok(())
}

fn set_default_written<F: Present>(
    alloc: Global,
    source: &ProjectFiles<'_, F>,
    kind: &Name,
    metadata: &WrittenMetadata<'_>,
    scope: &mut Scope,
) -> Result<(), EvalFault>
    ensures { Changes result scope.new
        (with_default_written kind.now (definitions_in F.files source.now scope.old)
        (metadata_of metadata.now)) }
{
    let context = ElementContext::of_definitions(source.files, source.project, scope);
    let nothing = no_item(alloc);
    let value = metadata.value(alloc, &context.of_metadata(kind, &nothing))?;
    let Some((name, text)) = value else {
        return Ok(());
    };
    set_default(alloc, scope, kind, name, text)?;
    Ok(())
}

/// The last definition of a metadata wins.
fn set_default(
    alloc: Global,
    scope: &mut Scope,
    kind: &Name,
    name: Name,
    text: Text,
) -> Result<(), NoMemory>
    ensures { OnOk result (scope.new ≡ with_default scope.old kind.now (Some (name, text))) }
{
    let mut pairs = scope.defaults.replace(kind, Pairs::new(alloc))?;
    pairs.insert(name, text)?;
    scope.defaults.insert(kind.copy()?, pairs)
}
