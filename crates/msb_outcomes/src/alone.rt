//! Builds on one node.

ghost use Rattle.std.specs.Prelude.{◌⊎◌, IfOk};
ghost use Rattle.build_outcome.specs.Outcomes.{IsOutcome};
ghost use Rattle.msb_instance.specs.Kept.{AreEvaluated};
ghost use Rattle.task_trait.specs.Tools.{BeginsWith};
ghost use Rattle.request_machine.specs.Worlds.{world_of};
ghost use Rattle.build_engine.specs.Statuses.{IsCompletion, IsRefusal};
ghost use Rattle.build_engine.specs.UsedFor.{IsUsedFor};
ghost use Rattle.msb_outcomes.specs.Calls.{as_uses};

use build_engine::build_on_one;
use build_outcome::Outcome;
use build_world::World;
use msb_instance::Instances;
use msb_values::NoMemory;
use request_machine::{NodeContext, Walk, root_key};
use std::alloc::Global;
use task_trait::CountedTools;

/// Builds a world on one node, which begins with these instances. The tools are called as the
/// build's history has it.
pub fn build_world_alone<'a, T: CountedTools + 'a>(
    alloc: Global,
    low: bool,
    world: &'a World,
    instances: Instances,
    tools: &'a mut T,
) -> Result<Outcome, NoMemory>
    requires { AreEvaluated world.now.tree.files instances }
    ensures outcome { IfOk result (λ o. ∥ IsOutcome (world_of T.answer world.entry.now) low o ∥₁) }
    ensures status { IfOk result (λ o. IsCompletion o.status ⊎ IsRefusal o.status) }
    ensures used { IfOk result (λ o. ∥ IsUsedFor (world_of T.answer world.entry.now) low o
        (as_uses (T.calls tools.old)) (as_uses (T.calls tools.new)) ∥₁) }
    ensures begun { BeginsWith (T.calls tools.old) (T.calls tools.new) }
{
    let key = root_key(world)?;
    let walk = Walk::start(alloc, world)?;
    let mut context = NodeContext {
        world,
        tools: &mut *tools,
        instances,
    };
    let outcome = build_on_one(alloc, key, walk, &mut context, low);
    let _lent = context.into_tools();
    outcome
}
