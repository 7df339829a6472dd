//! Builds on one node.

ghost use Rattle.std.specs.Prelude.{◌≡◌, ◌⊎◌, [], IfOk};
ghost use mathlib.Core.List.{IsPrefix};
ghost use Rattle.build_outcome.specs.Outcomes.{IsOutcome};
ghost use Rattle.build_scheduler.specs.Position.{begins};
ghost use Rattle.build_engine.specs.Statuses.{IsCompletion, IsRefusal};
ghost use Rattle.build_engine.specs.UsedFor.{IsUsedFor};

use build_outcome::Outcome;
use build_plain::build_alone;
use build_scheduler::{Core, Walker};
use msb_values::NoMemory;
use result_cache::RequestKey;
use std::alloc::Global;
use std::mem;

/// Builds the request of a walk that had no answer yet, on one node, and tells what the build
/// prints and writes. The build's history takes the least ready request each time, and the tools at
/// the place are used as it has it; after want of memory their uses begin with those of before.
/// What the build has made is not given back piece by piece, which would take a tenth of its time:
/// the process keeps it. (MSBuild command-line reference, -maxCpuCount.)
pub fn build_on_one<W: Walker>(
    alloc: Global,
    key: RequestKey,
    walk: W,
    place: &mut W::Place,
    low: bool,
) -> Result<Outcome, NoMemory>
    requires key { key ≡ (W.seen walk).world.root }
    requires begins { (W.seen walk).position ≡ begins (W.seen walk).world key [] }
    requires asked { (W.seen walk).asked ≡ 0 }
    requires learnt { (W.seen walk).learnt ≡ [] }
    requires place { W.Fits place.old (W.seen walk).world }
    ensures outcome { IfOk result (λ o. ∥ IsOutcome (W.seen walk).world low o ∥₁) }
    ensures status { IfOk result (λ o. IsCompletion o.status ⊎ IsRefusal o.status) }
    ensures used { IfOk result (λ o. ∥ IsUsedFor (W.seen walk).world low o (W.used place.old)
        (W.used place.new) ∥₁) }
    ensures front { IsPrefix (W.used place.old) (W.used place.new) }
    ensures place { W.Fits place.new (W.seen walk).world }
    ensures lent { W.lent place.new ≡ W.lent place.old }
{
    let mut core = Core::new_boxed(alloc, key, walk)?;
    build_alone(&mut core, place);
    let outcome = Outcome::of(alloc, &core, low);
    mem::forget(core);
    outcome
}
