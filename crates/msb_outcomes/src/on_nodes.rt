//! Builds on several nodes.

ghost use Rattle.std.specs.Prelude.{◌≡◌, ◌⊎◌, ◌<◌, ◌≤◌, All, IfOk, vec_len};
ghost use Rattle.build_outcome.specs.Outcomes.{IsOutcome};
ghost use Rattle.msb_instance.specs.Kept.{AreEvaluated};
ghost use Rattle.request_machine.specs.NodeContexts.{Suits};
ghost use Rattle.request_machine.specs.Worlds.{world_of};
ghost use Rattle.build_engine.specs.OnNodes.{IsOutcomeOn};
ghost use Rattle.build_engine.specs.Statuses.{IsCompletion, IsRefusal};

use crate::alone::build_world_alone;
use crate::world_with_instances::WorldWithInstances;
use build_engine::build_on_many;
use build_outcome::Outcome;
use build_world::World;
use msb_instance::Instances;
use msb_values::NoMemory;
use request_machine::{NodeContext, Walk, root_key};
use std::alloc::Global;
use std::mem;
use std::sync::Wait;
use std::thread::Threads;
use task_trait::{Counted, CountedTools, Tools};

/// Builds what is given on up to so many nodes, each in a thread of its own, as there is work for
/// them. They share tools, which each of them counts by itself. One node needs no thread. The world
/// is not given back piece by piece, which one thread alone would have to do: the process keeps it.
pub fn build_world_on<R: Threads + Wait + Sync, T: Tools + Sync>(
    rt: &R,
    alloc: Global,
    low: bool,
    nodes: u32,
    given: WorldWithInstances,
    tools: &T,
) -> Result<Outcome, NoMemory>
    requires { (0 < nodes) × (nodes ≤ 64) }
    ensures outcome { IfOk result (λ o. ∥ IsOutcome (world_of T.answer given) low o ∥₁) }
    ensures nodes { IfOk result (λ o.
        ∥ IsOutcomeOn (world_of T.answer given) nodes low o ∥₁) }
    ensures status { IfOk result (λ o. IsCompletion o.status ⊎ IsRefusal o.status) }
{
    let (world, instances) = given.parts();
    if nodes == 1 {
        let mut own = Counted::new(alloc, tools)?;
        let outcome = build_world_alone(alloc, low, &world, instances, &mut own);
        mem::forget(world);
        return outcome;
    }
    let mut counted = tools_for(alloc, nodes, tools)?;
    let contexts = contexts_of(alloc, &world, instances, &mut counted)?;
    let outcome = build_at_contexts(rt, alloc, low, &world, contexts);
    mem::forget(world);
    outcome
}

// Builds a world, on a node for each of these contexts.
fn build_at_contexts<'a, R: Threads + Wait + Sync, T: CountedTools + Send + Drop + 'a>(
    rt: &R,
    alloc: Global,
    low: bool,
    world: &'a World,
    contexts: Vec<NodeContext<'a, &'a mut T>>,
) -> Result<Outcome, NoMemory>
    requires count { (0 < vec_len contexts) × (vec_len contexts ≤ 64) }
    requires suit { All (λ context. Suits T.answer context.world.now context.instances
        (world_of T.answer world.now)) contexts.items }
    ensures outcome { IfOk result (λ o. ∥ IsOutcome (world_of T.answer world.entry.now) low o ∥₁) }
    ensures nodes { IfOk result (λ o.
        ∥ IsOutcomeOn (world_of T.answer world.entry.now) (vec_len contexts.entry) low o ∥₁) }
    ensures status { IfOk result (λ o. IsCompletion o.status ⊎ IsRefusal o.status) }
{
    let key = root_key(world)?;
    let walk = Walk::start(alloc, world)?;
    build_on_many(rt, alloc, key, walk, contexts, low)
}

/// The contexts of nodes that have these tools. The nodes share these instances, and all that they
/// evaluate.
pub fn contexts_of<'a, T: CountedTools + Drop + 'a>(
    alloc: Global,
    world: &'a World,
    instances: Instances,
    tools: &'a mut Vec<T>,
) -> Result<Vec<NodeContext<'a, &'a mut T>>, NoMemory>
    requires { AreEvaluated world.now.tree.files instances }
    ensures count { IfOk result (λ contexts. vec_len contexts ≡ vec_len tools.old) }
    ensures suit { IfOk result (λ contexts. All (λ context. Suits T.answer context.world.now
        context.instances (world_of T.answer world.entry.now)) contexts.items) }
{
    let mut shared = instances.sharing(alloc, &world.tree)?;
    let mut contexts = Vec::new(alloc);
    for lent in tools.iter_mut() {
        let instances = shared.beside(alloc, &world.tree)?;
        contexts.push(NodeContext {
            world,
            tools: lent,
            instances,
        })?;
    }
    Ok(contexts)
}

// The tools for each node, which counts its calls by itself.
fn tools_for<'a, T: Tools>(
    alloc: Global,
    nodes: u32,
    tools: &'a T,
) -> Result<Vec<Counted<'a, T>>, NoMemory>
    ensures { IfOk result (λ counted. vec_len counted ≡ nodes) }
{
    let mut counted = Vec::new(alloc);
    for _ in 0..nodes {
        counted.push(Counted::new(alloc, tools)?)?;
    }
    Ok(counted)
}
