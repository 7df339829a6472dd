//! What is made of the work that is left.

ghost use Rattle.std.specs.Prelude.{◌≡◌, ◌⊎◌, ◌<◌, ◌≤◌, IfOk};
ghost use Rattle.build_engine.specs.Statuses.{IsCompletion};
ghost use Rattle.task_trait.specs.Tools.{BeginsWith};
ghost use Rattle.msb_outcomes.specs.Calls.{AreCallsFor};
ghost use Rattle.msb_outcomes.specs.OnNodes.{ComesOn};
ghost use Rattle.msb_outcomes.specs.Outcomes.{ComesOf, HasStatus, IsUnfinished, MakesRuns};

use crate::alone::build_world_alone;
use crate::checked::check_world;
use crate::on_nodes::build_world_on;
use crate::work::Work;
use build_outcome::Outcome;
use msb_values::NoMemory;
use msb_words::Options;
use std::alloc::Global;
use std::sync::Wait;
use std::thread::Threads;
use task_trait::{Counted, CountedTools, Tools};

/// What comes of the work, where a build takes one node.
pub fn outcome_alone<T: CountedTools>(
    alloc: Global,
    options: &Options,
    work: Work,
    tools: &mut T,
) -> Result<Outcome, NoMemory>
    requires { HasStatus work }
    ensures outcome { IfOk result (ComesOf T.answer options.now.low work) }
    ensures status { IfOk result (λ o. IsCompletion o.status ⊎ IsUnfinished o.status) }
    ensures uncalled { (MakesRuns work → ⊥) → T.calls tools.new ≡ T.calls tools.old }
    ensures calls { IfOk result (λ o. AreCallsFor T.answer options.now.low work o
        (T.calls tools.old) (T.calls tools.new)) }
    ensures begun { BeginsWith (T.calls tools.old) (T.calls tools.new) }
{
    match work {
        Work::Told(outcome) => Ok(outcome),
        Work::Build(given) => {
            let (world, instances) = given.parts();
            build_world_alone(alloc, options.low, &world, instances, tools)
        }
        Work::Check(given) => check_world(alloc, given, tools),
    }
}

/// What comes of the work, where a build takes as many nodes as the words tell.
pub fn outcome_on<R: Threads + Wait + Sync, T: Tools + Sync>(
    rt: &R,
    alloc: Global,
    options: &Options,
    work: Work,
    tools: &T,
) -> Result<Outcome, NoMemory>
    requires status { HasStatus work }
    requires nodes { (0 < options.now.nodes) × (options.now.nodes ≤ 64) }
    ensures outcome { IfOk result (ComesOf T.answer options.now.low work) }
    ensures nodes { IfOk result (ComesOn T.answer options.now.nodes options.now.low work) }
    ensures status { IfOk result (λ o. IsCompletion o.status ⊎ IsUnfinished o.status) }
{
    match work {
        Work::Told(outcome) => Ok(outcome),
        Work::Build(given) => build_world_on(rt, alloc, options.low, options.nodes, given, tools),
        Work::Check(given) => {
            let mut counted = Counted::new(alloc, tools)?;
            check_world(alloc, given, &mut counted)
        }
    }
}
