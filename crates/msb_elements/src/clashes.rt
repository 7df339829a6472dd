//! Attributes that may not stand together.
ghost use Rattle.std.specs.Prelude.{◌≡◌, ◌&&◌, IfOk, option_map};
ghost use Rattle.std.specs.Option.{option_copied};
ghost use Rattle.std.specs.List.{list_any};
ghost use Rattle.std.specs.Str.{str_to_ascii_lowercase};
ghost use Rattle.msb_elements.specs.Rows.{row_of, item_clashes};
ghost use Rattle.msb_elements.specs.Stands.{role_of, or_else};
ghost use Rattle.msb_elements.specs.Checks.{
  both_in,
  is_clash,
  is_named,
  is_same,
  are_apart,
  first_other,
  names_of,
};

use crate::attributes::has;
use crate::kind::{Kind, Role};
use msb_values::{NoMemory, Text};
use std::alloc::Global;
use std::collections::BTreeMap;

/// Up to so many attributes are compared two by two, which takes no memory.
const FEW: usize = 16;

/// The first two attributes that may not stand together: two that the table keeps apart, or two
/// metadata or parameters of one name without case.
pub fn both<'a>(
    alloc: Global,
    kind: Kind,
    attributes: &'a [(Text, Text)],
) -> Result<Option<(&'a str, &'a str)>, NoMemory>
    ensures { IfOk result (λ found. names_of found ≡ both_in kind attributes.now) }
{
    if attributes.len() <= FEW {
        return Ok(both_of_few(kind, attributes));
    }
    both_of_many(alloc, kind, attributes)
}

fn both_of_few(kind: Kind, attributes: &[(Text, Text)]) -> Option<(&str, &str)>
    ensures { names_of result ≡ both_in kind attributes.now }
{
    for (at, (name, _)) in attributes.iter().enumerate() {
        let name = name.as_str();
        if let Some(other) = other_of(kind, attributes, name, &attributes[at + 1..]) {
            return Some((name, other));
        }
    }
    None
}

/// The first of the attributes `rest` that may not stand beside this one.
fn other_of<'a>(
    kind: Kind,
    attributes: &[(Text, Text)],
    name: &str,
    rest: &'a [(Text, Text)],
) -> Option<&'a str>
    ensures { option_copied result ≡ first_other (are_apart kind attributes.now name.now) rest.now }
{
    match kind.role(name) {
        Role::Named => same_name(kind, name, rest),
        _ => clashing(kind, attributes, name, rest),
    }
}

/// The first of these metadata or parameters that has this name without case.
fn same_name<'a>(kind: Kind, name: &str, rest: &'a [(Text, Text)]) -> Option<&'a str>
    ensures { option_copied result ≡ first_other
        (λ other. is_named (role_of kind other) && is_same (str_to_ascii_lowercase name.now) other)
        rest.now }
{
    for (other, _) in rest {
        if is_named_same(kind, name, other.as_str()) {
            return Some(other.as_str());
        }
    }
    None
}

fn is_named_same(kind: Kind, name: &str, other: &str) -> bool
    ensures { result
        ≡ (is_named (role_of kind other.now) && is_same (str_to_ascii_lowercase name.now)
        other.now) }
{
    is_same(name, other) && matches!(kind.role(other), Role::Named)
}

/// Whether two names are one without case.
fn is_same(name: &str, other: &str) -> bool
    ensures { result ≡ is_same (str_to_ascii_lowercase name.now) other.now }
{
    other.eq_ignore_ascii_case(name)
}

/// Many attributes are looked at from the back, with a map of the names of those behind.
fn both_of_many<'a>(
    alloc: Global,
    kind: Kind,
    attributes: &'a [(Text, Text)],
) -> Result<Option<(&'a str, &'a str)>, NoMemory>
    ensures { IfOk result (λ found. names_of found ≡ both_in kind attributes.now) }
{
    let mut later = BTreeMap::new(alloc);
    let mut found = None;
    let mut at = attributes.len();
    while at > 0 {
        at -= 1;
        let name = attributes[at].0.as_str();
        let other = match kind.role(name) {
            Role::Named => later.insert(lower(alloc, name)?, name)?,
            _ => clashing(kind, attributes, name, &attributes[at + 1..]),
        };
        found = first_of(name, other, found);
    }
    Ok(found)
}

/// The name with the other, if there is one, or what was found among the later ones.
fn first_of<'a>(
    name: &'a str,
    other: Option<&'a str>,
    found: Option<(&'a str, &'a str)>,
) -> Option<(&'a str, &'a str)>
    ensures { names_of result
        ≡ or_else (option_map (λ o. (name.now, o)) (option_copied other.entry))
        (names_of found.entry) }
{
    match other {
        Some(other) => Some((name, other)),
        None => found,
    }
}

fn lower(alloc: Global, name: &str) -> Result<Text, NoMemory>
    ensures { IfOk result (λ key. key ≡ str_to_ascii_lowercase name.now) }
{
    Ok(Text::from(name.to_ascii_lowercase(alloc)?))
}

/// The first of the attributes `rest` that may not stand beside this one.
fn clashing<'a>(
    kind: Kind,
    attributes: &[(Text, Text)],
    name: &str,
    rest: &'a [(Text, Text)],
) -> Option<&'a str>
    ensures { option_copied result ≡ first_other
        (λ other. list_any (is_clash attributes.now name.now other) (row_of kind).clashes)
        rest.now }
{
    if !kind.keeps_apart() {
        return None;
    }
    for (other, _) in rest {
        if are_apart(kind, attributes, name, other.as_str()) {
            return Some(other.as_str());
        }
    }
    None
}

fn are_apart(kind: Kind, attributes: &[(Text, Text)], one: &str, other: &str) -> bool
    ensures { result ≡ list_any (is_clash attributes.now one.now other.now) (row_of kind).clashes }
{
    match kind {
        Kind::Item => are_item_names(attributes, one, other),
        Kind::TargetItem => (one == "KeepMetadata" && other == "RemoveMetadata")
            || are_item_names(attributes, one, other),
        Kind::Output => one == "ItemName" && other == "PropertyName",
        _ => false,
    }
}

fn are_item_names(attributes: &[(Text, Text)], one: &str, other: &str) -> bool
    ensures { result ≡ list_any (is_clash attributes.now one.now other.now) item_clashes }
{
    match one {
        "Include" => matches!(other, "Remove" | "Update"),
        "Remove" => other == "Update",
        "Exclude" => matches!(other, "Remove" | "Update") && !has(attributes, "Include"),
        _ => false,
    }
}
