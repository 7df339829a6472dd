//! What a value has as an element, taken out of it.
ghost use Rattle.std.specs.Prelude.{◌≡◌, option_map, option_and_then};
ghost use Rattle.serde_json.specs.Data.{object};
ghost use Rattle.serde_json.specs.Find.{as_str};
ghost use Rattle.serde_json.specs.View.{view as value_of, items_view, members_view};
ghost use Rattle.msb_elements.specs.Forms.{texts_of, texts_at, text_at};
ghost use Rattle.msb_elements.specs.Reads.{Gives};
ghost use Rattle.msb_elements.specs.Trees.{
  element,
  tree_of,
  trees_of,
  entries_if,
  as_element,
  of_values,
};
ghost use Rattle.msb_elements.specs.Sorted.{Sorts, with_member};

use crate::errors::PartFault;
use crate::members::is_key_of_element;
use msb_values::Text;
use serde_json::{Map, Value};
use std::alloc::Global;

/// What an element has itself, and the values of the entries below it.
#[derive(Drop)]
pub struct Own {
    pub name: Text,
    pub attributes: Vec<(Text, Text)>,
    pub text: Text,
    pub entries: Vec<Value>,
}

/// What a value has as an element; refused as [`PartFault::NotElement`] exactly where it is none.
pub fn own_of(alloc: Global, value: Value) -> Result<Own, PartFault>
    ensures { Gives
        (λ own. element own.name own.attributes.items own.text
        (trees_of (items_view own.entries.items))) result (as_element (tree_of (value_of value))) }
{
    match value {
        Value::Object(members) => own_in(alloc, members),
        _ => Err(PartFault::NotElement),
    }
}

fn own_in(alloc: Global, members: Map<String, Value>) -> Result<Own, PartFault>
    ensures { Gives
        (λ own. element own.name own.attributes.items own.text
        (trees_of (items_view own.entries.items))) result
        (as_element (tree_of (object (members_view members.entries)))) }
{
    match sort(members) {
        Some(values) => own_from(alloc, values),
        None => Err(PartFault::NotElement),
    }
}

fn own_from(alloc: Global, values: Values) -> Result<Own, PartFault>
    ensures { Gives
        (λ own. element own.name own.attributes.items own.text
        (trees_of (items_view own.entries.items))) result
        (of_values (option_map value_of values.name) (option_map value_of values.attributes)
        (option_map value_of values.text) (option_map value_of values.entries)) }
{
    let Values {
        name,
        attributes,
        text,
        entries,
    } = values;
    let name = name_of(name)?;
    let attributes = attributes_of(alloc, attributes)?;
    let text = text_of(alloc, text)?;
    let entries = entries_of(alloc, entries)?;
    Ok(Own {
        name,
        attributes,
        text,
        entries,
    })
}

/// The values of an object's members, by their keys.
#[derive(Drop)]
pub struct Values {
    name: Option<Value>,
    attributes: Option<Value>,
    text: Option<Value>,
    entries: Option<Value>,
}

/// The values of members that are an element's; none where another is among them, or a text stands
/// beside children.
fn sort(members: Map<String, Value>) -> Option<Values>
    ensures { Sorts result (members_view members.entries) }
{
    let mut values = Values {
        name: None,
        attributes: None,
        text: None,
        entries: None,
    };
    for (key, value) in members {
        if !is_key_of_element(key.as_str()) {
            return None;
        }
        values = values.with(key.as_str(), value);
    }
    if values.text.is_some() && values.entries.is_some() {
        return None;
    }
    Some(values)
}

impl Values {
    /// With the value of one more member. A map has each key once, and of equal keys the first
    /// would count.
    fn with(self, key: &str, value: Value) -> Values
        ensures { result ≡ with_member key.now value self }
    {
        let Values {
            name,
            attributes,
            text,
            entries,
        } = self;
        match key {
            "e" => Values {
                name: name.or(Some(value)),
                attributes,
                text,
                entries,
            },
            "a" => Values {
                name,
                attributes: attributes.or(Some(value)),
                text,
                entries,
            },
            "t" => Values {
                name,
                attributes,
                text: text.or(Some(value)),
                entries,
            },
            "c" => Values {
                name,
                attributes,
                text,
                entries: entries.or(Some(value)),
            },
            _ => Values {
                name,
                attributes,
                text,
                entries,
            },
        }
    }
}

fn name_of(value: Option<Value>) -> Result<Text, PartFault>
    ensures { Gives (λ t. t) result (option_and_then as_str (option_map value_of value)) }
{
    match value {
        Some(Value::String(name)) => Ok(Text::from(name)),
        _ => Err(PartFault::NotElement),
    }
}

fn text_of(alloc: Global, value: Option<Value>) -> Result<Text, PartFault>
    ensures { Gives (λ t. t) result (text_at (option_map value_of value)) }
{
    match value {
        None => Ok(Text::of(alloc, "")?),
        Some(Value::String(text)) => Ok(Text::from(text)),
        Some(_) => Err(PartFault::NotElement),
    }
}

fn attributes_of(alloc: Global, value: Option<Value>) -> Result<Vec<(Text, Text)>, PartFault>
    ensures { Gives (λ v. v.items) result (texts_at (option_map value_of value)) }
{
    match value {
        None => Ok(Vec::new(alloc)),
        Some(Value::Object(members)) => texts_in(alloc, members),
        Some(_) => Err(PartFault::NotElement),
    }
}

fn texts_in(alloc: Global, members: Map<String, Value>) -> Result<Vec<(Text, Text)>, PartFault>
    ensures { Gives (λ v. v.items) result (texts_of (members_view members.entries)) }
{
    let mut texts = Vec::with_capacity(alloc, members.len())?;
    for (key, value) in members {
        let Value::String(text) = value else {
            return Err(PartFault::NotElement);
        };
        texts.push((Text::from(key), Text::from(text)))?;
    }
    Ok(texts)
}

fn entries_of(alloc: Global, value: Option<Value>) -> Result<Vec<Value>, PartFault>
    ensures { Gives (λ v. trees_of (items_view v.items)) result
        (entries_if (option_map value_of value)) }
{
    match value {
        None => Ok(Vec::new(alloc)),
        Some(Value::Array(items)) => Ok(items),
        Some(_) => Err(PartFault::NotElement),
    }
}
