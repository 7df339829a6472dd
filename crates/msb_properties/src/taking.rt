ghost use Rattle.std.specs.Prelude.{◌≡◌, [], ◌++◌, Ok, OnOk};
ghost use Rattle.std.specs.List.{list_any};
ghost use Rattle.std.specs.Str.{bytes_eq};
ghost use Rattle.msb_elements.specs.Nodes.{name_of};
ghost use Rattle.msb_elements.specs.View.{view};
ghost use Rattle.msb_expand.specs.Keys.{key_of};
ghost use Rattle.msb_laws.specs.Results.{fold_ok};
ghost use Rattle.msb_values.specs.Caused.{UnlessMemory};
ghost use Rattle.msb_values.specs.declared.cause.Cause.TheVariants.{Reserved};
ghost use Rattle.build_world.specs.Answers.{GivesFault};
ghost use Rattle.build_world.specs.Elements.{at, fault_of, seen_element};
ghost use Rattle.msb_properties.specs.Propertied.{
  may_change,
  set_if,
  set_named,
  with_property,
  with_group,
  names_if,
  names_in,
  with_project,
  with_element,
};
ghost use Rattle.msb_properties.specs.Seen.{seen_setting, seen_properties, IsPlain};

use crate::properties::Properties;
use crate::setting::Setting;
use build_world::{EvalFault, PlacedElement};
use msb_elements::Element;
use msb_expand::{Use, is_reserved};
use msb_values::{Cause, Item, List, Name, NameFault, NoMemory, Text};
use std::alloc::Global;

/// Takes what a laid-out element changes of the properties. (PropertyGroup element; Project
/// element.)
pub(crate) fn take_element(
    alloc: Global,
    setting: &Setting<'_>,
    properties: &mut Properties,
    element: &PlacedElement<'_>,
) -> Result<(), EvalFault>
    requires { IsPlain (seen_setting setting.now) properties.old }
    ensures taken { GivesFault (λ _. seen_properties properties.new) result
        (with_element (seen_setting setting.now) (seen_properties properties.old)
        (seen_element element.now)) }
    ensures plain { OnOk result (IsPlain (seen_setting setting.now) properties.new) }
{
    match element.element.name() {
        "Project" => take_project(alloc, setting, properties, element),
        "PropertyGroup" => take_group(alloc, setting, properties, element),
        _ => Ok(()),
    }
}

/// The global properties that a Project element makes its own; an entry that is no name is passed
/// over.
fn take_project(
    alloc: Global,
    setting: &Setting<'_>,
    properties: &mut Properties,
    element: &PlacedElement<'_>,
) -> Result<(), EvalFault>
    requires { IsPlain (seen_setting setting.now) properties.old }
    ensures taken { GivesFault (λ _. seen_properties properties.new) result
        (with_project (seen_setting setting.now) (seen_properties properties.old)
        (seen_element element.now)) }
    ensures plain { OnOk result (IsPlain (seen_setting setting.now) properties.new) }
{
    match element.element.attribute("TreatAsLocalProperty") {
        Some(written) => {
            let items = properties.list(alloc, setting, element, written)?;
            add_names(alloc, &mut properties.local, items.as_slice())
        }
        None => Ok(()),
    }
}

fn add_names(alloc: Global, names: &mut List<Name>, items: &[Item]) -> Result<(), EvalFault>
    ensures { GivesFault (λ _. names.new) result (Ok (names.old ++ names_in items.now)) }
{
    for item in items {
        add_name(alloc, names, item)?;
    }
    Ok(())
}

fn add_name(alloc: Global, names: &mut List<Name>, item: &Item) -> Result<(), EvalFault>
    ensures { GivesFault (λ _. names.new) result
        (Ok (names.old ++ names_if (key_of item.now.ident) [])) }
{
    match Name::read(alloc, item.ident.as_str()) {
        Ok(name) => {
            names.push(name)?;
            Ok(())
        }
        Err(NameFault::BadName(_)) => Ok(()),
        Err(NameFault::Memory) => Err(EvalFault::from(NoMemory)),
    }
}

/// The properties of a PropertyGroup whose Condition holds.
fn take_group(
    alloc: Global,
    setting: &Setting<'_>,
    properties: &mut Properties,
    element: &PlacedElement<'_>,
) -> Result<(), EvalFault>
    requires { IsPlain (seen_setting setting.now) properties.old }
    ensures taken { GivesFault (λ _. seen_properties properties.new) result
        (with_group (seen_setting setting.now) (seen_properties properties.old)
        (seen_element element.now)) }
    ensures plain { OnOk result (IsPlain (seen_setting setting.now) properties.new) }
{
    if properties.holds_in_file(alloc, setting, element)? {
        return take_each(
            alloc,
            setting,
            properties,
            element.file,
            element.element.children(),
        );
    }
    Ok(())
}

fn take_each(
    alloc: Global,
    setting: &Setting<'_>,
    properties: &mut Properties,
    file: &str,
    elements: &[Element],
) -> Result<(), EvalFault>
    requires { IsPlain (seen_setting setting.now) properties.old }
    ensures taken { GivesFault (λ _. seen_properties properties.new) result
        (fold_ok
        (λ p element. with_property (seen_setting setting.now) p (at file.now (view element)))
        (seen_properties properties.old) elements.now) }
    ensures plain { OnOk result (IsPlain (seen_setting setting.now) properties.new) }
{
    for element in elements {
        take_property(alloc, setting, properties, &PlacedElement { file, element })?;
    }
    Ok(())
}

fn take_property(
    alloc: Global,
    setting: &Setting<'_>,
    properties: &mut Properties,
    element: &PlacedElement<'_>,
) -> Result<(), EvalFault>
    requires { IsPlain (seen_setting setting.now) properties.old }
    ensures taken { GivesFault (λ _. seen_properties properties.new) result
        (with_property (seen_setting setting.now) (seen_properties properties.old)
        (seen_element element.now)) }
    ensures plain { OnOk result (IsPlain (seen_setting setting.now) properties.new) }
{
    if properties.holds_in_project(alloc, setting, element)? {
        return take_named(alloc, setting, properties, element);
    }
    Ok(())
}

/// A property element whose Condition holds.
fn take_named(
    alloc: Global,
    setting: &Setting<'_>,
    properties: &mut Properties,
    element: &PlacedElement<'_>,
) -> Result<(), EvalFault>
    requires { IsPlain (seen_setting setting.now) properties.old }
    ensures taken { GivesFault (λ _. seen_properties properties.new) result
        (set_named (key_of (name_of (view element.now.element.now))) (seen_setting setting.now)
        (seen_properties properties.old) (seen_element element.now)) }
    ensures plain { OnOk result (IsPlain (seen_setting setting.now) properties.new) }
{
    match Name::read(alloc, element.element.name()) {
        Ok(name) => if is_reserved(&name) {
            Err(reserved_fault(alloc, element, &name))
        } else {
            set(alloc, setting, properties, element, name)
        },
        Err(NameFault::BadName(_)) => Ok(()),
        Err(NameFault::Memory) => Err(EvalFault::from(NoMemory)),
    }
}

/// The fault of a property that the engine sets.
fn reserved_fault(alloc: Global, element: &PlacedElement<'_>, name: &Name) -> EvalFault
    ensures { UnlessMemory result.cause (result
        ≡ fault_of (seen_element element.now) (Reserved name.now)) }
{
    match Text::of(alloc, name.key()) {
        Ok(name) => element.fault(alloc, Cause::Reserved(name)),
        Err(no_memory) => EvalFault::from(no_memory),
    }
}

/// Gives a property the text of the element, unless it is a global one that no file has made its
/// own.
fn set(
    alloc: Global,
    setting: &Setting<'_>,
    properties: &mut Properties,
    element: &PlacedElement<'_>,
    name: Name,
) -> Result<(), EvalFault>
    requires { IsPlain (seen_setting setting.now) properties.old }
    ensures taken { GivesFault (λ _. seen_properties properties.new) result
        (set_if (may_change (seen_setting setting.now) (seen_properties properties.old) name)
        (seen_setting setting.now) (seen_properties properties.old) (seen_element element.now)
        name) }
    ensures plain { OnOk result (IsPlain (seen_setting setting.now) properties.new) }
{
    if !may_change(setting, properties, &name) {
        return Ok(());
    }
    let text = properties.text(
        alloc,
        setting,
        element,
        Use::Properties,
        element.element.text(),
    )?;
    properties.scope.props.insert(name, text)?;
    Ok(())
}

fn may_change(setting: &Setting<'_>, properties: &Properties, name: &Name) -> bool
    ensures { result ≡ may_change (seen_setting setting.now) (seen_properties properties.now)
        name.now }
{
    match setting.key.globals.get(name) {
        Some(_) => is_among(properties.local.as_slice(), name),
        None => true,
    }
}

fn is_among(names: &[Name], name: &Name) -> bool
    ensures { result ≡ list_any (λ own. bytes_eq own name.now) names.now }
{
    names.iter().any(|own| own.key() == name.key())
}
