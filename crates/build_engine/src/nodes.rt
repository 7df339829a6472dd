//! Builds on several nodes.

ghost use Rattle.std.specs.Prelude.{◌≡◌, ◌⊎◌, ◌<◌, ◌≤◌, [], All, IfOk, vec_len};
ghost use Rattle.build_outcome.specs.Outcomes.{IsOutcome};
ghost use Rattle.build_scheduler.specs.Position.{begins};
ghost use Rattle.build_engine.specs.OnNodes.{IsOutcomeOn};
ghost use Rattle.build_engine.specs.Statuses.{IsCompletion, IsRefusal};

use build_nodes::build_with;
use build_outcome::Outcome;
use build_scheduler::{Core, Walker};
use msb_values::NoMemory;
use result_cache::RequestKey;
use std::alloc::Global;
use std::mem;
use std::sync::Wait;
use std::thread::Threads;

/// Builds the request of a walk that had no answer yet, on a node for each place, of which there
/// are 1 to 64, and tells what the build prints and writes. Where a node wants memory, it retires
/// and another one goes on; one at least stays. What the build has made is not given back piece by
/// piece, which would take a tenth of its time: the process keeps it. (MSBuild command-line
/// reference, -maxCpuCount.)
pub fn build_on_many<R: Threads + Wait + Sync, W: Walker + Send>(
    rt: &R,
    alloc: Global,
    key: RequestKey,
    walk: W,
    places: Vec<W::Place>,
    low: bool,
) -> Result<Outcome, NoMemory>
where
    W::Place: Send + Drop,
    W::Origin: Send,
    requires key { key ≡ (W.seen walk).world.root }
    requires begins { (W.seen walk).position ≡ begins (W.seen walk).world key [] }
    requires asked { (W.seen walk).asked ≡ 0 }
    requires learnt { (W.seen walk).learnt ≡ [] }
    requires places { (0 < vec_len places) × (vec_len places ≤ 64) }
    requires fits { All (λ place. W.Fits place (W.seen walk).world) places.items }
    ensures outcome { IfOk result (λ o. ∥ IsOutcome (W.seen walk).world low o ∥₁) }
    ensures nodes { IfOk result (λ o. ∥ IsOutcomeOn (W.seen walk).world (vec_len places) low o ∥₁) }
    ensures status { IfOk result (λ o. IsCompletion o.status ⊎ IsRefusal o.status) }
{
    let core = Core::new_boxed(alloc, key, walk)?;
    let built = build_with(rt, alloc, core, places)?;
    let outcome = Outcome::of(alloc, &built, low);
    mem::forget(built);
    outcome
}
