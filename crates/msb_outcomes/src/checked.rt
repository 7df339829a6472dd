//! Checks of a build, on one node.

ghost use Rattle.std.specs.Prelude.{◌≡◌, ◌⊎◌, IfOk};
ghost use Rattle.build_engine.specs.Statuses.{IsCompletion};
ghost use Rattle.build_steady.specs.Verdicts.{verdict_of};
ghost use Rattle.request_machine.specs.Worlds.{world_of};
ghost use Rattle.task_trait.specs.Tools.{BeginsWith};
ghost use Rattle.msb_outcomes.specs.Checked.{checked, verdict_status, verdict_text};
ghost use Rattle.msb_outcomes.specs.Outcomes.{IsUnfinished};

use crate::world_with_instances::WorldWithInstances;
use build_outcome::Outcome;
use build_report::{
    show_circular_run, show_crowding_instance, show_deep_instance, show_differs, show_spent,
    show_steady,
};
use build_steady::{Verdict, check};
use msb_values::{NoMemory, Text8};
use std::alloc::Global;
use task_trait::CountedTools;

/// Checks what is given: its verdict is told, and no file is written.
pub fn check_world<T: CountedTools>(
    alloc: Global,
    given: WorldWithInstances,
    tools: &mut T,
) -> Result<Outcome, NoMemory>
    ensures outcome { IfOk result (λ o. o ≡ checked (verdict_of (world_of T.answer given))) }
    ensures status { IfOk result (λ o. IsCompletion o.status ⊎ IsUnfinished o.status) }
    ensures begun { BeginsWith (T.calls tools.old) (T.calls tools.new) }
{
    let (world, instances) = given.parts();
    let verdict = check(alloc, &world, instances, tools)?;
    outcome_of(alloc, &verdict)
}

fn outcome_of(alloc: Global, verdict: &Verdict) -> Result<Outcome, NoMemory>
    ensures outcome { IfOk result (λ o. o ≡ checked verdict.now) }
    ensures status { IfOk result (λ o. IsCompletion o.status ⊎ IsUnfinished o.status) }
{
    let text = text_of(alloc, verdict)?;
    Ok(Outcome::of_text(alloc, status_of(verdict), text))
}

fn status_of(verdict: &Verdict) -> u8
    ensures is { result ≡ verdict_status verdict.now }
    ensures status { IsCompletion result ⊎ IsUnfinished result }
{
    match verdict {
        Verdict::Steady(_) => 0,
        Verdict::Differs(_, _, _) => 1,
        Verdict::Circular(_) => 1,
        Verdict::TooDeep(_) => 1,
        Verdict::TooMany(_) => 1,
        Verdict::Spent(_) => 9,
    }
}

fn text_of(alloc: Global, verdict: &Verdict) -> Result<Text8, NoMemory>
    ensures { IfOk result (λ t. t ≡ verdict_text verdict.now) }
{
    match verdict {
        Verdict::Steady(bodies) => show_steady(alloc, *bodies),
        Verdict::Differs(run, first, other) => {
            show_differs(alloc, run, first.get(), other.get())
        }
        Verdict::Circular(run) => show_circular_run(alloc, run),
        Verdict::TooDeep(instance) => show_deep_instance(alloc, instance),
        Verdict::TooMany(instance) => show_crowding_instance(alloc, instance),
        Verdict::Spent(bodies) => show_spent(alloc, *bodies),
    }
}
