ghost use Rattle.std.specs.Prelude.{map};
ghost use Rattle.build_world.specs.Answers.{GivesFault};
ghost use Rattle.msb_instance.specs.Targets.{row_of, rows_of};
ghost use Rattle.msb_instance.specs.Made.{seen_context, target_seen};

use build_world::{EvalFault, PlacedElement, UsedTarget};
use element_texts::ElementContext;
use file_store::Tree;
use msb_values::{Copied, List};
use std::alloc::Global;
use target_order::TargetRow;

/// The targets, each with those that it hooks on, or the first fault: target by target
/// BeforeTargets, then AfterTargets. (MSBuild documentation: "Target build order".)
pub(crate) fn rows(
    alloc: Global,
    context: &ElementContext<'_, Tree>,
    targets: &[UsedTarget],
) -> Result<List<TargetRow>, EvalFault>
    ensures { GivesFault (λ rows. rows) result
        (rows_of (seen_context context.now) (map target_seen targets.now)) }
{
    let mut rows = List::new(alloc);
    for target in targets {
        let row = row(alloc, context, target)?;
        rows.push(row)?;
    }
    Ok(rows)
}

fn row(
    alloc: Global,
    context: &ElementContext<'_, Tree>,
    target: &UsedTarget,
) -> Result<TargetRow, EvalFault>
    ensures { GivesFault (λ row. row) result
        (row_of (seen_context context.now) (target_seen target.now)) }
{
    let element = PlacedElement::of(&target.at);
    let before = context.names(alloc, &element, element.element.attribute("BeforeTargets"))?;
    let after = context.names(alloc, &element, element.element.attribute("AfterTargets"))?;
    let name = target.name.copy()?;
    Ok(TargetRow {
        name,
        before,
        after,
    })
}
