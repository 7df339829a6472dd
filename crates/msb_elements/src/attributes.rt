//! What is wrong with the attributes of an element.
ghost use Rattle.std.specs.Prelude.{◌≡◌, None};
ghost use Rattle.std.specs.List.{list_any};
ghost use Rattle.std.specs.Option.{option_copied};
ghost use Rattle.serde_json.specs.View.{items_view};
ghost use Rattle.msb_elements.specs.Rows.{names_items};
ghost use Rattle.msb_elements.specs.Trees.{no_trees, trees_of};
ghost use Rattle.msb_elements.specs.Stands.{role_of};
ghost use Rattle.msb_elements.specs.Checks.{
  is_not_allowed,
  has,
  missing_in,
  bad_attribute,
  first_bad,
};
ghost use Rattle.msb_elements.specs.declared.kind.Kind.TheVariants.{Output};

use crate::element::value_of;
use crate::kind::{Kind, Role};
use msb_values::{Text, bad_name, bad_target_name};
use serde_json::Value;

/// Whether there is an attribute that the element may not have.
pub fn has_not_allowed(kind: Kind, attributes: &[(Text, Text)]) -> bool
    ensures { result ≡ list_any (λ pair. is_not_allowed (role_of kind pair.0)) attributes.now }
{
    for (name, _) in attributes {
        if matches!(kind.role(name.as_str()), Role::NotAllowed) {
            return true;
        }
    }
    false
}

pub fn has(attributes: &[(Text, Text)], name: &str) -> bool
    ensures { result ≡ has name.now attributes.now }
{
    value_of(attributes, name).is_some()
}

fn names_items(attributes: &[(Text, Text)]) -> bool
    ensures { result ≡ list_any (λ name. has name attributes.now) names_items }
{
    has(attributes, "Include") || has(attributes, "Remove") || has(attributes, "Update")
}

/// The attribute that the element needs and does not have; and a Choose with nothing below it lacks
/// its `When`.
pub fn missing(kind: Kind, attributes: &[(Text, Text)], entries: &[Value]) -> Option<&'static str>
    ensures { option_copied result ≡ missing_in kind attributes.now
        (trees_of (items_view entries.now)) }
{
    match kind {
        Kind::Choose => if entries.is_empty() {
            Some("When")
        } else {
            None
        },
        Kind::Import => if has(attributes, "Project") {
            None
        } else {
            Some("Project")
        },
        Kind::When => if has(attributes, "Condition") {
            None
        } else {
            Some("Condition")
        },
        Kind::Target => if has(attributes, "Name") {
            None
        } else {
            Some("Name")
        },
        Kind::OnError => if has(attributes, "ExecuteTargets") {
            None
        } else {
            Some("ExecuteTargets")
        },
        Kind::Output => missing_of_output(attributes),
        Kind::Item => if names_items(attributes) {
            None
        } else {
            Some("Include")
        },
        Kind::TargetItem => if has(attributes, "Exclude") && !names_items(attributes) {
            Some("Include")
        } else {
            None
        },
        _ => None,
    }
}

fn missing_of_output(attributes: &[(Text, Text)]) -> Option<&'static str>
    ensures { option_copied result ≡ missing_in Output attributes.now no_trees }
{
    if !has(attributes, "TaskParameter") {
        return Some("TaskParameter");
    }
    if has(attributes, "ItemName") || has(attributes, "PropertyName") {
        None
    } else {
        Some("ItemName")
    }
}

fn bad_attribute(kind: Kind, name: &str, value: &str) -> Option<u64>
    ensures { result ≡ bad_attribute kind (name.now, value.now) }
{
    if matches!(kind.role(name), Role::Named) {
        return bad_name(name);
    }
    match (kind, name) {
        (Kind::Target, "Name") => bad_target_name(value),
        (Kind::Output, "ItemName" | "PropertyName" | "TaskParameter") => bad_name(value),
        _ => None,
    }
}

/// The first bad byte of the first attribute that is no name where one is needed.
pub fn first_bad(kind: Kind, attributes: &[(Text, Text)]) -> Option<u64>
    ensures { result ≡ first_bad kind attributes.now }
{
    for (name, value) in attributes {
        let bad = bad_attribute(kind, name.as_str(), value.as_str());
        if bad.is_some() {
            return bad;
        }
    }
    None
}
