ghost use Rattle.std.specs.Prelude.{◌≡◌, [], ◌++◌, IfOk, OnOk, string_bytes, option_copied};
ghost use Rattle.std.specs.List.{flat_map};
ghost use Rattle.std.specs.Option.{unwrap_or};
ghost use Rattle.msb_values.specs.Overlays.{overlaid};
ghost use Rattle.build_report.specs.Line.{line};
ghost use Rattle.build_report.specs.Eval.{
  eval_text,
  named_value,
  property_line,
  item_line,
  metadata_line,
  item_lines,
  list_lines,
  duplicate_line,
};

use msb_values::{
    Defaults, Item, List, Lists, Name, NoMemory, Pairs, Scope, Text, Text8, unescape, with_defaults,
};
use std::alloc::Global;

/// An evaluated project, line by line: its properties, its items with their metadata, and the
/// imports that were ignored as duplicates.
///
/// Properties and types stand in byte order of their names, values and identities are unescaped.
/// (MSBuild command-line reference; MSBuild properties; MSBuild items.)
pub fn show_eval(alloc: Global, scope: &Scope, duplicates: &List<Text>) -> Result<Text8, NoMemory>
    ensures { IfOk result (λ t. t ≡ eval_text scope.now duplicates.now) }
{
    let mut shown = String::new(alloc);
    push_properties(alloc, &mut shown, &scope.props)?;
    push_lists(alloc, &mut shown, &scope.defaults, &scope.items)?;
    push_duplicates(&mut shown, duplicates.as_slice())?;
    Ok(Text8::from(shown.into_bytes()))
}

fn push_properties(alloc: Global, shown: &mut String, props: &Pairs) -> Result<(), NoMemory>
    ensures { OnOk result (string_bytes shown.new
        ≡ string_bytes shown.old ++ flat_map property_line props.now) }
{
    for (name, value) in props.iter() {
        push_property(alloc, shown, name, value)?;
    }
    Ok(())
}

fn push_property(
    alloc: Global,
    shown: &mut String,
    name: &Name,
    value: &Text,
) -> Result<(), NoMemory>
    ensures { OnOk result (string_bytes shown.new
        ≡ string_bytes shown.old ++ property_line (name.now, value.now)) }
{
    shown.push_str("property ")?;
    push_value(alloc, shown, name, value)
}

/// A name and its value, at the end of a line.
fn push_value(alloc: Global, shown: &mut String, name: &Name, value: &Text) -> Result<(), NoMemory>
    ensures { OnOk result (string_bytes shown.new
        ≡ string_bytes shown.old ++ line (named_value (name.now, value.now))) }
{
    let name = name.key();
    let value = unescape(alloc, value.as_str())?;
    let value = value.as_str();
    Ok(write!(shown, "{name}={value}\n")?)
}

fn push_lists(
    alloc: Global,
    shown: &mut String,
    defaults: &Defaults,
    lists: &Lists,
) -> Result<(), NoMemory>
    ensures { OnOk result (string_bytes shown.new
        ≡ string_bytes shown.old ++ flat_map (list_lines defaults.now) lists.now) }
{
    for (kind, items) in lists.iter() {
        push_items(alloc, shown, kind, defaults.get(kind), items.as_slice())?;
    }
    Ok(())
}

fn push_items(
    alloc: Global,
    shown: &mut String,
    kind: &Name,
    defaults: Option<&Pairs>,
    items: &[Item],
) -> Result<(), NoMemory>
    ensures { OnOk result (string_bytes shown.new
        ≡ string_bytes shown.old
        ++ flat_map (item_lines kind.now (unwrap_or (option_copied defaults.entry) [])) items.now) }
{
    for item in items {
        push_item(alloc, shown, kind, item)?;
        push_metadata(alloc, shown, defaults, &item.meta)?;
    }
    Ok(())
}

fn push_item(alloc: Global, shown: &mut String, kind: &Name, item: &Item) -> Result<(), NoMemory>
    ensures { OnOk result (string_bytes shown.new
        ≡ string_bytes shown.old ++ item_line kind.now item.now) }
{
    let kind = kind.key();
    let ident = unescape(alloc, item.ident.as_str())?;
    let ident = ident.as_str();
    Ok(write!(shown, "item {kind} {ident}\n")?)
}

/// The metadata of an item: its own, and the defaults of its type that it does not have itself.
fn push_metadata(
    alloc: Global,
    shown: &mut String,
    defaults: Option<&Pairs>,
    own: &Pairs,
) -> Result<(), NoMemory>
    ensures { OnOk result (string_bytes shown.new
        ≡ string_bytes shown.old ++ flat_map metadata_line
        (overlaid (unwrap_or (option_copied defaults.entry) []) own.now)) }
{
    match defaults {
        None => push_pairs(alloc, shown, own),
        Some(defaults) => push_pairs(alloc, shown, &with_defaults(defaults, own)?),
    }
}

fn push_pairs(alloc: Global, shown: &mut String, pairs: &Pairs) -> Result<(), NoMemory>
    ensures { OnOk result (string_bytes shown.new
        ≡ string_bytes shown.old ++ flat_map metadata_line pairs.now) }
{
    for (name, value) in pairs.iter() {
        push_pair(alloc, shown, name, value)?;
    }
    Ok(())
}

fn push_pair(alloc: Global, shown: &mut String, name: &Name, value: &Text) -> Result<(), NoMemory>
    ensures { OnOk result (string_bytes shown.new
        ≡ string_bytes shown.old ++ metadata_line (name.now, value.now)) }
{
    shown.push_str("  ")?;
    push_value(alloc, shown, name, value)
}

fn push_duplicates(shown: &mut String, duplicates: &[Text]) -> Result<(), NoMemory>
    ensures { OnOk result (string_bytes shown.new
        ≡ string_bytes shown.old ++ flat_map duplicate_line duplicates.now) }
{
    for path in duplicates {
        push_duplicate(shown, path.as_str())?;
    }
    Ok(())
}

fn push_duplicate(shown: &mut String, path: &str) -> Result<(), NoMemory>
    ensures { OnOk result (string_bytes shown.new
        ≡ string_bytes shown.old ++ duplicate_line path.now) }
{
    Ok(write!(shown, "duplicate {path}\n")?)
}
