ghost use Rattle.std.specs.Prelude.{◌≡◌, ◌++◌, OnOk, map, option_copied};
ghost use Rattle.msb_elements.specs.View.{view};
ghost use Rattle.build_world.specs.Answers.{GivesFault};
ghost use Rattle.build_world.specs.Elements.{seen_placed};
ghost use Rattle.msb_properties.specs.Passed.{on_project, with_initial, initial_of, default_of};
ghost use Rattle.msb_properties.specs.Seen.{seen_setting, seen_properties, IsPlain};

use crate::properties::Properties;
use crate::setting::Setting;
use build_world::{EvalFault, Placed, PlacedElement};
use msb_elements::Element;
use msb_values::{Copied, List, Name, NoMemory};
use std::alloc::Global;

/// The targets of the InitialTargets of all files, in the order of the layout. (Project element.)
pub(crate) fn initial_targets(
    alloc: Global,
    setting: &Setting<'_>,
    properties: &Properties,
    elements: &[Placed],
) -> Result<List<Name>, EvalFault>
    requires { IsPlain (seen_setting setting.now) properties.now }
    ensures { GivesFault (λ names. names) result
        (initial_of (seen_setting setting.now) (seen_properties properties.now)
        (map seen_placed elements.now)) }
{
    let mut names = List::new(alloc);
    for placed in elements {
        add_initial(alloc, setting, properties, placed, &mut names)?;
    }
    Ok(names)
}

fn add_initial(
    alloc: Global,
    setting: &Setting<'_>,
    properties: &Properties,
    placed: &Placed,
    names: &mut List<Name>,
) -> Result<(), EvalFault>
    requires { IsPlain (seen_setting setting.now) properties.now }
    ensures { GivesFault (λ _. names.new) result
        (with_initial (seen_setting setting.now) (seen_properties properties.now) names.old
        (seen_placed placed.now)) }
{
    let Some(written) = on_project(&placed.element, "InitialTargets") else {
        return Ok(());
    };
    let element = PlacedElement::of(placed);
    let more = properties.names(alloc, setting, &element, written)?;
    Ok(append(names, more.as_slice())?)
}

fn append(names: &mut List<Name>, more: &[Name]) -> Result<(), NoMemory>
    ensures { OnOk result (names.new ≡ names.old ++ more.now) }
{
    for name in more {
        names.push(name.copy()?)?;
    }
    Ok(())
}

/// The targets of the first DefaultTargets, be it empty, or none. (Project element.)
pub(crate) fn default_targets(
    alloc: Global,
    setting: &Setting<'_>,
    properties: &Properties,
    elements: &[Placed],
) -> Result<List<Name>, EvalFault>
    requires { IsPlain (seen_setting setting.now) properties.now }
    ensures { GivesFault (λ names. names) result
        (default_of (seen_setting setting.now) (seen_properties properties.now)
        (map seen_placed elements.now)) }
{
    for placed in elements {
        if let Some(written) = on_project(&placed.element, "DefaultTargets") {
            let element = PlacedElement::of(placed);
            return properties.names(alloc, setting, &element, written);
        }
    }
    Ok(List::new(alloc))
}

/// The attribute of a Project element.
fn on_project<'a>(element: &'a Element, name: &str) -> Option<&'a str>
    ensures { option_copied result ≡ on_project name.now (view element.now) }
{
    match element.name() {
        "Project" => element.attribute(name),
        _ => None,
    }
}
