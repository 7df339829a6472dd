ghost use Rattle.std.specs.Prelude.{◌≡◌, ◌||◌, [], false, Some};
ghost use Rattle.serde_json.specs.View.{view as value_of, items_view};
ghost use Rattle.msb_elements.specs.Stands.{child_kind};
ghost use Rattle.msb_elements.specs.Trees.{tree_of, trees_of};
ghost use Rattle.msb_elements.specs.Checks.{is_on_error};
ghost use Rattle.msb_elements.specs.Checked.{Finds};
ghost use Rattle.msb_elements.specs.Projects.{
  project_in,
  root_or_fault,
  element_or_fault,
  children_or_fault,
  below_or_fault,
};
ghost use Rattle.msb_elements.specs.View.{view, views};

use crate::errors::PartFault;
use crate::kind::{Kind, Standing};
use crate::own::check_own;
use crate::parts::{Own, own_of};
use crate::{Element, Place, Project, ReadFault};
use serde_json::Value;
use std::alloc::Global;

/// Reads a project file: a JSON text whose value is a tree of elements, each of which stands where
/// it may and has what it may have. (MSBuild project file schema reference.)
///
/// The bytes are refused as [`ReadFault::NotJson`] exactly where `serde_json` reads no value from
/// them. Else the elements are looked at in document order, parents first; below ProjectExtensions
/// nothing is looked at and nothing is kept. The first element with a fault gives the refusal, and
/// of its faults the first in the order of [`ReadFault`].
pub fn read_project(alloc: Global, bytes: &[u8]) -> Result<Project, ReadFault>
    ensures { Finds (λ project. view project.root) result (project_in bytes.now) }
{
    match Value::from_slice(alloc, bytes) {
        Ok(value) => root_of(alloc, value),
        Err(error) => {
            if error.is_memory() {
                return Err(ReadFault::Memory);
            }
            Err(ReadFault::NotJson)
        }
    }
}

fn root_of(alloc: Global, value: Value) -> Result<Project, ReadFault>
    ensures { Finds (λ project. view project.root) result (root_or_fault (Some (value_of value))) }
{
    let position = Position {
        parent: None,
        after_on_error: false,
        is_last: true,
    };
    let root = element(alloc, position, Place::root(alloc), value)?;
    Ok(Project { root })
}

/// Where an element stands among its parent's children.
#[derive(Clone, Copy)]
pub struct Position {
    parent: Option<Kind>,
    /// Whether an OnError of a target stands before it.
    pub after_on_error: bool,
    pub is_last: bool,
}

#[cycle(element)]
fn element(
    alloc: Global,
    position: Position,
    place: Place,
    value: Value,
) -> Result<Element, ReadFault>
    ensures { Finds view result
        (element_or_fault position.parent position.after_on_error position.is_last place
        (tree_of (value_of value))) }
{
    let own = match own_of(alloc, value) {
        Ok(own) => own,
        Err(PartFault::NotElement) => return Err(ReadFault::NotElement(place)),
        Err(_) => return Err(ReadFault::Memory),
    };
    let standing = Standing::of(position.parent, own.name.as_str());
    check_own(alloc, standing, position, &place, &own)?;
    let Own {
        name,
        attributes,
        text,
        entries,
    } = own;
    let children = below(alloc, standing, &place, entries)?;
    Ok(Element::new(place, name, attributes, text, children))
}

/// The children of an element without a fault.
#[cycle(element)]
fn below(
    alloc: Global,
    standing: Standing,
    place: &Place,
    entries: Vec<Value>,
) -> Result<Vec<Element>, ReadFault>
    ensures { Finds (λ v. views v.items) result
        (below_or_fault standing place.now (trees_of (items_view entries.items))) }
{
    match standing {
        Standing::Stands(kind) => {
            if !kind.is_looked_into() {
                return Ok(Vec::new(alloc));
            }
            children(alloc, kind, place, entries)
        }
        Standing::Misplaced(_) => Ok(Vec::new(alloc)),
        Standing::Unknown => Ok(Vec::new(alloc)),
    }
}

#[cycle(element)]
fn children(
    alloc: Global,
    kind: Kind,
    place: &Place,
    entries: Vec<Value>,
) -> Result<Vec<Element>, ReadFault>
    ensures { Finds (λ v. views v.items) result
        (children_or_fault (Some kind) false place.now 0 (trees_of (items_view entries.items))) }
{
    let count = entries.len();
    let mut all = Vec::with_capacity(alloc, count)?;
    let mut after_on_error = false;
    for (number, entry) in entries.into_iter().enumerate() {
        let is_last = number + 1 == count;
        let position = Position {
            parent: Some(kind),
            after_on_error,
            is_last,
        };
        let own_place = place.child(number as u64)?;
        let child = element(alloc, position, own_place, entry)?;
        after_on_error = is_after(after_on_error, kind, child.name());
        all.push(child)?;
    }
    Ok(all)
}

/// Whether what follows a child of this name stands after an OnError.
fn is_after(before: bool, kind: Kind, name: &str) -> bool
    ensures { result ≡ (before || is_on_error (child_kind (Some kind) name.now)) }
{
    before || matches!(kind.child(name), Some(Kind::OnError))
}
