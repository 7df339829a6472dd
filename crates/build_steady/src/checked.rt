ghost use Rattle.std.specs.Prelude.{◌≡◌, IfOk};
ghost use Rattle.msb_instance.specs.Kept.{AreEvaluated};
ghost use Rattle.build_steady.specs.Verdicts.{verdict_of};
ghost use Rattle.request_machine.specs.Worlds.{world_of};
ghost use Rattle.task_trait.specs.Tools.{BeginsWith};

use crate::{Verdict, check_walk};
use build_world::World;
use msb_instance::Instances;
use msb_values::NoMemory;
use request_machine::{NodeContext, Walk, root_key};
use std::alloc::Global;
use task_trait::CountedTools;

/// Checks a build: whether its world is whole and steady, or the first event in the order of demand
/// that speaks against it. No file is written. Its requests begin with these instances, where they
/// are theirs. (MSBuild task; Building projects in
/// parallel.)
pub fn check<'a, T: CountedTools + 'a>(
    alloc: Global,
    world: &'a World,
    instances: Instances,
    tools: &'a mut T,
) -> Result<Verdict, NoMemory>
    requires { AreEvaluated world.now.tree.files instances }
    ensures verdict { IfOk result (λ verdict.
        verdict ≡ verdict_of (world_of T.answer world.entry.now)) }
    ensures begun { BeginsWith (T.calls tools.old) (T.calls tools.new) }
{
    let key = root_key(world)?;
    let walk = Walk::start(alloc, world)?;
    let mut site = NodeContext {
        world,
        tools: &mut *tools,
        instances,
    };
    let verdict = check_walk(alloc, &key.instance, walk, &mut site);
    let _lent = site.into_tools();
    verdict
}
