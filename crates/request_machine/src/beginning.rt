ghost use Rattle.std.specs.Prelude.{◌≡◌, ◌≢◌, IfOk, Some, codes, not, true};
ghost use Rattle.msb_values.specs.declared.cause.Cause.TheVariants.{Memory};
ghost use Rattle.build_world.specs.Faults.{fault_text, not_found_text};
ghost use Rattle.build_world.specs.Instances.{seen_instance};
ghost use Rattle.msb_instance.specs.Kept.{AreEvaluated};
ghost use Rattle.request_machine.specs.Requests.{failed, has_no_targets, unevaluated};
ghost use Rattle.request_machine.specs.Plain.{is_plain, project_asks};
ghost use Rattle.request_machine.specs.Walk.{walk_in};
ghost use Rattle.request_machine.specs.Worlds.{bodies_of, instances_of, project_of, walk_of};
ghost use Rattle.request_machine.specs.Stages.{IsReady, StandsAt, StandsBy};
ghost use Rattle.target_order.specs.declared.visits.Asked.TheVariants.{Body as ForBody};
ghost use Rattle.request_machine.specs.declared.stage.Stage.TheVariants.{Over};
ghost use Rattle.request_machine.specs.declared.stage.RunState.TheVariants.{Wanted};

use crate::context::{Project, RequestContext};
use crate::order::NextStop;
use crate::plain::project_asks;
use crate::reply::{Reply, all_targets};
use crate::shared::SharedList;
use crate::stage::{RequestScope, RunState, Stage, Visit};
use build_world::{EvalFault, Instance, World, not_found_text};
use msb_files::Journal;
use msb_instance::{InstanceRef, Instances};
use msb_values::{Cause, Copied, NoMemory, Text};
use result_cache::{RequestKey, RunId};
use std::alloc::Global;
use target_order::{OrderAnswer, OrderWalk};

/// Where a request stands that has begun, and whether it is plain: what it asks between its runs is
/// told by the records that it uses, and by nothing else of its journal.
#[derive(Drop)]
pub struct Beginning<T> {
    pub stage: Stage<T>,
    pub plain: bool,
}

/// Where a request stands when it begins: its project is evaluated, and the order is answered until
/// it wants the run of a target, or the request is over. (How MSBuild builds projects, evaluation
/// phase; Target build order.)
pub fn begin<T>(
    alloc: Global,
    world: &World,
    instances: &mut Instances,
    key: &RequestKey,
    journal: &Journal,
) -> Result<Beginning<T>, NoMemory>
    requires { AreEvaluated world.now.tree.files instances.old }
    ensures stands { IfOk result (λ beginning. StandsAt world.now key.now journal.now
        (walk_of world.now key.now journal.now) beginning.stage) }
    ensures plain { IfOk result
        (λ beginning. beginning.plain ≡ is_plain (instances_of world.now.tree.files key.now)) }
    ensures kept { AreEvaluated world.now.tree.files instances.new }
{
    if world.tree.find(key.instance.path.as_str()).is_none() {
        return reply_not_found(alloc, key.instance.path.as_str());
    }
    match instances.get(alloc, &world.tree, &key.instance) {
        Ok(instance) => begin_evaluated(alloc, world, key, journal, instance),
        Err(fault) => reply_refused(alloc, &fault),
    }
}

fn reply_not_found<T>(alloc: Global, path: &str) -> Result<Beginning<T>, NoMemory>
    ensures reply { IfOk result
        (λ beginning. beginning.stage ≡ Over (unevaluated (not_found_text path.now))) }
    ensures plain { IfOk result (λ beginning. beginning.plain ≡ true) }
{
    let text = not_found_text(alloc, path)?;
    Ok(Beginning {
        stage: Stage::Over(Reply::of_fault(alloc, text)),
        plain: true,
    })
}

fn reply_refused<T>(alloc: Global, fault: &EvalFault) -> Result<Beginning<T>, NoMemory>
    ensures reply { IfOk result
        (λ beginning. beginning.stage ≡ Over (unevaluated (fault_text fault.now))) }
    ensures plain { IfOk result (λ beginning. beginning.plain ≡ true) }
    ensures cause { IfOk result (λ _. fault.now.cause ≢ Memory) }
{
    if let Cause::Memory = fault.cause {
        return Err(NoMemory);
    }
    let text = fault.to_text(alloc)?;
    Ok(Beginning {
        stage: Stage::Over(Reply::of_fault(alloc, text)),
        plain: true,
    })
}

fn begin_evaluated<T>(
    alloc: Global,
    world: &World,
    key: &RequestKey,
    journal: &Journal,
    instance: InstanceRef,
) -> Result<Beginning<T>, NoMemory>
    ensures stands { IfOk result (λ beginning.
        let p = project_of world.now key.now (seen_instance instance) in
        StandsAt world.now key.now journal.now
        (walk_in p key.now (bodies_of world.now p) journal.now) beginning.stage) }
    ensures plain { IfOk result
        (λ beginning. beginning.plain ≡ not (project_asks (seen_instance instance))) }
{
    let plain = !project_asks(alloc, instance.get())?;
    let stage = begin_visit(alloc, world, key, journal, instance)?;
    Ok(Beginning { stage, plain })
}

fn begin_visit<T>(
    alloc: Global,
    world: &World,
    key: &RequestKey,
    journal: &Journal,
    instance: InstanceRef,
) -> Result<Stage<T>, NoMemory>
    ensures { IfOk result
        (let p = project_of world.now key.now (seen_instance instance) in StandsAt world.now key.now
        journal.now (walk_in p key.now (bodies_of world.now p) journal.now)) }
{
    let evaluated = instance.get();
    if has_no_targets(evaluated, key) {
        return reply_no_targets(alloc);
    }
    let state = RequestScope {
        scope: evaluated.scope.copy()?,
        returned: SharedList::new(alloc),
    };
    let targets = all_targets(evaluated, key)?;
    let mut order = OrderWalk::start(alloc, &evaluated.rows, &targets)?;
    let context = RequestContext {
        project: Project {
            tree: &world.tree,
            key: &key.instance,
            instance: &instance,
        },
        key,
        state: &state,
        journal,
    };
    let next_stop = context.answer_order(alloc, &mut order, OrderAnswer::First)?;
    make_stage(key, instance, state, order, next_stop)
}

fn reply_no_targets<T>(alloc: Global) -> Result<Stage<T>, NoMemory>
    ensures { IfOk result (λ stage. stage ≡ Over (failed (Some (codes "no targets")))) }
{
    let text = Text::of(alloc, "no targets")?;
    Ok(Stage::Over(Reply::failure(alloc, Some(text))))
}

// Whether nothing is named, and the project has no target.
fn has_no_targets(instance: &Instance, key: &RequestKey) -> bool
    ensures { result ≡ has_no_targets (seen_instance instance.now) key.now }
{
    instance.targets.as_slice().is_empty() && !key.named
}

fn make_stage<T>(
    key: &RequestKey,
    instance: InstanceRef,
    state: RequestScope,
    order: OrderWalk,
    next_stop: NextStop,
) -> Result<Stage<T>, NoMemory>
    requires { IsReady next_stop order }
    ensures { IfOk result (StandsBy key.now (seen_instance instance) state order next_stop) }
{
    match next_stop {
        NextStop::Wants(target) => {
            let run = RunId {
                instance: key.instance.copy()?,
                target,
            };
            Ok(Stage::Visits(want_run(instance, state, order, run)))
        }
        NextStop::Over(reply) => Ok(Stage::Over(reply)),
    }
}

fn want_run<T>(instance: InstanceRef, state: RequestScope, order: OrderWalk, run: RunId) -> Visit<T>
    requires { order.asked ≡ ForBody }
    ensures instance { result.instance ≡ instance }
    ensures state { result.state ≡ state }
    ensures order { result.order ≡ order }
    ensures run { result.run ≡ run }
    ensures at { result.at ≡ Wanted }
{
    Visit {
        instance,
        state,
        order,
        run,
        at: RunState::Wanted,
    }
}
