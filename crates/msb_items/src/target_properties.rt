ghost use Rattle.std.specs.Prelude.{true, option_to_list};
ghost use Rattle.build_world.specs.Answers.{GivesFault};
ghost use Rattle.build_world.specs.Elements.{seen_element};
ghost use Rattle.element_texts.specs.Seen.{context_of};
ghost use Rattle.msb_items.specs.TargetProperties.{property_change_if, property_changes};

use crate::metadata::reserved_fault;
use build_world::{EvalFault, PlacedElement};
use element_texts::ElementContext;
use msb_expand::is_reserved;
use msb_paths::Present;
use msb_values::{Change, Copied, Name};
use std::alloc::Global;

/// What a property element in a target changes in a bucket, if its Condition holds. (PropertyGroup
/// element.)
pub(crate) fn property_change<F: Present>(
    alloc: Global,
    context: &ElementContext<'_, F>,
    name: &Name,
    element: &PlacedElement<'_>,
) -> Result<Option<Change>, EvalFault>
    ensures { GivesFault option_to_list result
        (property_changes name.now (context_of F.files context.now) (seen_element element.now)) }
{
    if context.element_holds(alloc, element)? {
        return set(alloc, context, name, element);
    }
    Ok(None)
}

fn set<F: Present>(
    alloc: Global,
    context: &ElementContext<'_, F>,
    name: &Name,
    element: &PlacedElement<'_>,
) -> Result<Option<Change>, EvalFault>
    ensures { GivesFault option_to_list result
        (property_change_if true name.now (context_of F.files context.now)
        (seen_element element.now)) }
{
    if is_reserved(name) {
        return Err(reserved_fault(alloc, element, name));
    }
    let value = context.text(alloc, element, element.element.text())?;
    let name = name.copy()?;
    Ok(Some(Change::SetProp(name, value)))
}
