//! What a JSON value has as an element, looked at in its place.
ghost use Rattle.std.specs.Prelude.{◌≡◌, codes, false, is_some};
ghost use Rattle.std.specs.Option.{option_map_or};
ghost use Rattle.std.specs.Str.{bytes_eq};
ghost use Rattle.serde_json.specs.Find.{get};
ghost use Rattle.serde_json.specs.View.{view as value_of, members_view};
ghost use Rattle.msb_elements.specs.Forms.{
  is_element_key,
  has_element_keys,
  has_element_members,
  name_in,
  attributes_in,
  text_in,
  texts_of,
};
ghost use Rattle.msb_elements.specs.Trees.{tree_of, entries_if};
ghost use Rattle.msb_elements.specs.Checks.{is_when};

use serde_json::{Map, Value};

/// Whether the value is an element of the name When. It is looked at whole but for what stands
/// below it.
#[tactic(auto, using(crate::proofs::Growing::when_found))]
pub fn is_when(value: &Value) -> bool
    ensures { result ≡ is_when (tree_of (value_of value.now)) }
{
    if !is_element_object(value) {
        return false;
    }
    if !has_attributes(value) || !has_text(value) {
        return false;
    }
    has_entries(value) && is_named_when(value)
}

/// Whether the value is an object that has only members of an element, and not both a text and
/// children.
fn is_element_object(value: &Value) -> bool
    ensures { result ≡ has_element_members (value_of value.now) }
{
    match value {
        Value::Object(members) => {
            has_only_element_keys(members)
                && !(value.get("t").is_some() && value.get("c").is_some())
        }
        _ => false,
    }
}

fn has_only_element_keys(members: &Map<String, Value>) -> bool
    ensures { result ≡ has_element_keys (members_view members.now.entries) }
{
    for (key, _) in members.iter() {
        if !is_key_of_element(key.as_str()) {
            return false;
        }
    }
    true
}

pub fn is_key_of_element(key: &str) -> bool
    ensures { result ≡ is_element_key key.now }
{
    matches!(key, "e" | "a" | "t" | "c")
}

fn is_named_when(value: &Value) -> bool
    ensures { result ≡ option_map_or (λ name. bytes_eq name (codes "When"))
        (name_in (value_of value.now)) false }
{
    match value.get("e") {
        Some(Value::String(name)) => name.as_str() == "When",
        _ => false,
    }
}

/// Whether the member `a` is an object of texts, if there is one.
fn has_attributes(value: &Value) -> bool
    ensures { result ≡ is_some (attributes_in (value_of value.now)) }
{
    match value.get("a") {
        None => true,
        Some(Value::Object(members)) => are_texts(members),
        Some(_) => false,
    }
}

fn are_texts(members: &Map<String, Value>) -> bool
    ensures { result ≡ is_some (texts_of (members_view members.now.entries)) }
{
    for (_, value) in members.iter() {
        if !matches!(value, Value::String(_)) {
            return false;
        }
    }
    true
}

/// Whether the member `t` is a text, if there is one.
fn has_text(value: &Value) -> bool
    ensures { result ≡ is_some (text_in (value_of value.now)) }
{
    match value.get("t") {
        None => true,
        Some(Value::String(_)) => true,
        Some(_) => false,
    }
}

/// Whether the member `c` is an array, if there is one.
fn has_entries(value: &Value) -> bool
    ensures { result ≡ is_some (entries_if (get (codes "c") (value_of value.now))) }
{
    match value.get("c") {
        None => true,
        Some(Value::Array(_)) => true,
        Some(_) => false,
    }
}
