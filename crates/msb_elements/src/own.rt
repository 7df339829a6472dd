//! What is wrong with an element itself.
ghost use Rattle.std.specs.Prelude.{◌≡◌};
ghost use Rattle.serde_json.specs.View.{items_view};
ghost use Rattle.msb_elements.specs.Trees.{trees_of};
ghost use Rattle.msb_elements.specs.Checks.{
  own_fault,
  fault_of_kind,
  fault_of_attributes,
  has_not_allowed,
  is_out_of_order,
  begins_otherwise,
  bad_name_in,
};
ghost use Rattle.msb_elements.specs.Checked.{Checks};

use crate::attributes::{first_bad, has_not_allowed, missing};
use crate::clashes::both;
use crate::kind::{Kind, Standing};
use crate::members::is_when;
use crate::parts::Own;
use crate::reading::Position;
use crate::{Place, ReadFault};
use msb_values::{Copied, Text, bad_name};
use serde_json::Value;
use std::alloc::Global;

/// Finds the least fault of an element.
pub fn check_own(
    alloc: Global,
    standing: Standing,
    position: Position,
    place: &Place,
    own: &Own,
) -> Result<(), ReadFault>
    ensures { Checks result
        (own_fault standing position.after_on_error position.is_last place.now own.now.name
        own.now.attributes.items own.now.text (trees_of (items_view own.now.entries.items))) }
{
    match standing {
        Standing::Stands(kind) => check_kind(alloc, kind, position, place, own),
        Standing::Misplaced(Some(kind)) => {
            if is_not_allowed(kind, own) {
                return Err(ReadFault::UnknownElement(place.copy()?));
            }
            Err(ReadFault::Misplaced(place.copy()?))
        }
        Standing::Misplaced(None) => Err(ReadFault::Misplaced(place.copy()?)),
        Standing::Unknown => Err(ReadFault::UnknownElement(place.copy()?)),
    }
}

/// Whether the element has an attribute or a text that it may not have.
fn is_not_allowed(kind: Kind, own: &Own) -> bool
    ensures { result ≡ has_not_allowed kind own.now.attributes.items own.now.text }
{
    has_not_allowed(kind, &own.attributes) || (!own.text.as_str().is_empty() && !kind.has_text())
}

fn begins_otherwise(entries: &[Value]) -> bool
    ensures { result ≡ begins_otherwise (trees_of (items_view entries.now)) }
{
    match entries {
        [first, ..] => !is_when(first),
        [] => false,
    }
}

/// Whether an element of this kind stands at a wrong place among the others, or a Choose begins
/// wrong.
fn is_out_of_order(kind: Kind, position: Position, entries: &[Value]) -> bool
    ensures { result ≡ is_out_of_order kind position.after_on_error position.is_last
        (trees_of (items_view entries.now)) }
{
    match kind {
        Kind::Otherwise => !position.is_last || position.after_on_error,
        Kind::Choose => begins_otherwise(entries) || position.after_on_error,
        Kind::OnError => false,
        _ => position.after_on_error,
    }
}

fn check_kind(
    alloc: Global,
    kind: Kind,
    position: Position,
    place: &Place,
    own: &Own,
) -> Result<(), ReadFault>
    ensures { Checks result
        (fault_of_kind kind position.after_on_error position.is_last place.now own.now.name
        own.now.attributes.items own.now.text (trees_of (items_view own.now.entries.items))) }
{
    if is_not_allowed(kind, own) {
        return Err(ReadFault::UnknownElement(place.copy()?));
    }
    if is_out_of_order(kind, position, &own.entries) {
        return Err(ReadFault::Misplaced(place.copy()?));
    }
    check_attributes(alloc, kind, place, own)
}

fn check_attributes(alloc: Global, kind: Kind, place: &Place, own: &Own) -> Result<(), ReadFault>
    ensures { Checks result
        (fault_of_attributes kind place.now own.now.name own.now.attributes.items
        (trees_of (items_view own.now.entries.items))) }
{
    if let Some(name) = missing(kind, &own.attributes, &own.entries) {
        let name = Text::of(alloc, name)?;
        return Err(ReadFault::MissingAttribute(place.copy()?, name));
    }
    if let Some((one, other)) = both(alloc, kind, &own.attributes)? {
        let one = Text::of(alloc, one)?;
        let other = Text::of(alloc, other)?;
        return Err(ReadFault::BothAttributes(place.copy()?, one, other));
    }
    match bad_name_of(kind, own) {
        Some(at) => Err(ReadFault::BadName(place.copy()?, at)),
        None => Ok(()),
    }
}

fn bad_name_of(kind: Kind, own: &Own) -> Option<u64>
    ensures { result ≡ bad_name_in kind own.now.name own.now.attributes.items }
{
    if !kind.has_tag() {
        let bad = bad_name(own.name.as_str());
        if bad.is_some() {
            return bad;
        }
    }
    first_bad(kind, &own.attributes)
}
