ghost use Rattle.std.specs.Prelude.{◌≡◌, ◌++◌, map, IfOk, OnOk, string_bytes};
ghost use Rattle.std.specs.List.{flat_map};
ghost use Rattle.trial_set.specs.Elements.{
  pair_text,
  next_pair,
  next_child,
  attributes_text,
  children_text,
  element_text,
};

use msb_values::NoMemory;
use std::alloc::Global;

/// An element as compact JSON. Its attributes stand in byte order of their names, and no text needs
/// an escape.
pub(crate) fn element(
    alloc: Global,
    name: &str,
    attributes: &[(&str, &str)],
    children: &[String],
) -> Result<String, NoMemory>
    ensures { IfOk result (λ text. string_bytes text
        ≡ element_text name.now (map (λ p. (p.0.now, p.1.now)) attributes.now)
        (map string_bytes children.now)) }
{
    let mut text = String::from_str(alloc, "{")?;
    push_attributes(&mut text, attributes)?;
    push_children(&mut text, children)?;
    push_pair(&mut text, "e", name)?;
    text.push('}')?;
    Ok(text)
}

fn push_pair(text: &mut String, name: &str, value: &str) -> Result<(), NoMemory>
    ensures { OnOk result (string_bytes text.new
        ≡ string_bytes text.old ++ pair_text (name.now, value.now)) }
{
    text.push('"')?;
    text.push_str(name)?;
    text.push_str("\":\"")?;
    text.push_str(value)?;
    text.push('"')?;
    Ok(())
}

fn push_attributes(text: &mut String, attributes: &[(&str, &str)]) -> Result<(), NoMemory>
    ensures { OnOk result (string_bytes text.new
        ≡ string_bytes text.old ++ attributes_text (map (λ p. (p.0.now, p.1.now)) attributes.now)) }
{
    let [(name, value), rest @ ..] = attributes else {
        return Ok(());
    };
    text.push_str("\"a\":{")?;
    push_pair(text, name, value)?;
    push_more_pairs(text, rest)?;
    text.push_str("},")?;
    Ok(())
}

fn push_more_pairs(text: &mut String, attributes: &[(&str, &str)]) -> Result<(), NoMemory>
    ensures { OnOk result (string_bytes text.new
        ≡ string_bytes text.old ++ flat_map next_pair
        (map (λ p. (p.0.now, p.1.now)) attributes.now)) }
{
    for (name, value) in attributes {
        text.push(',')?;
        push_pair(text, name, value)?;
    }
    Ok(())
}

fn push_children(text: &mut String, children: &[String]) -> Result<(), NoMemory>
    ensures { OnOk result (string_bytes text.new
        ≡ string_bytes text.old ++ children_text (map string_bytes children.now)) }
{
    let [child, rest @ ..] = children else {
        return Ok(());
    };
    text.push_str("\"c\":[")?;
    text.push_str(child.as_str())?;
    push_more_children(text, rest)?;
    text.push_str("],")?;
    Ok(())
}

fn push_more_children(text: &mut String, children: &[String]) -> Result<(), NoMemory>
    ensures { OnOk result (string_bytes text.new
        ≡ string_bytes text.old ++ flat_map next_child (map string_bytes children.now)) }
{
    for child in children {
        text.push(',')?;
        text.push_str(child.as_str())?;
    }
    Ok(())
}
