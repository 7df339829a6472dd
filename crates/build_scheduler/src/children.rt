ghost use Rattle.std.specs.Prelude.{◌≡◌, IfOk, length, map};
ghost use Rattle.build_meaning.specs.Lists.{Paired};
ghost use Rattle.build_scheduler.specs.Children.{
  AreAsked,
  IsChildSlot,
  child_origin,
  empty_set,
  no_run,
};
ghost use Rattle.build_scheduler.specs.Position.{ask_of};

use crate::request_set::RequestSet;
use crate::slot::{Origin, Slot};
use crate::{Answer, Walker};
use msb_values::{Copied, List, NoMemory};
use result_cache::{RequestKey, RequestResult, RunId};
use std::alloc::Global;

/// The walks of the calls, none of which had an answer yet.
pub(crate) fn child_slots<W: Walker>(
    alloc: Global,
    walk: &W,
    calls: &[RequestKey],
) -> Result<Vec<Slot<W>>, NoMemory>
    requires { AreAsked calls.now (ask_of (W.seen walk.now).position) }
    ensures { IfOk result (λ slots. Paired (IsChildSlot W.seen (W.seen walk.now)) slots.items
        calls.now) }
{
    let mut slots = Vec::new(alloc);
    for key in calls {
        slots.push(Slot::Ready(walk.child(key)?, Answer::First))?;
    }
    Ok(slots)
}

/// Whose requests the calls are.
pub(crate) fn child_origins(
    alloc: Global,
    caller: u64,
    depth: usize,
    calls: &[RequestKey],
) -> Result<Vec<Origin>, NoMemory>
    ensures { IfOk result (λ origins. origins.items ≡ map (child_origin caller depth) calls.now) }
{
    let mut origins = Vec::new(alloc);
    for key in calls {
        origins.push(Origin {
            key: key.copy()?,
            parent: Some(caller),
            depth,
        })?;
    }
    Ok(origins)
}

/// The calls are in no body.
pub(crate) fn no_runs(alloc: Global, calls: &[RequestKey]) -> Result<Vec<Option<RunId>>, NoMemory>
    ensures { IfOk result (λ runs. runs.items ≡ map no_run calls.now) }
{
    let mut runs = Vec::new(alloc);
    for _call in calls {
        runs.push(None)?;
    }
    Ok(runs)
}

/// An empty set for each call.
pub(crate) fn empty_sets(alloc: Global, calls: &[RequestKey]) -> Result<Vec<RequestSet>, NoMemory>
    ensures { IfOk result (λ sets. sets.items ≡ map empty_set calls.now) }
{
    let mut sets = Vec::new(alloc);
    for _call in calls {
        sets.push(RequestSet::new(alloc))?;
    }
    Ok(sets)
}

/// A place for the result of each call.
pub(crate) fn no_results(
    alloc: Global,
    calls: &[RequestKey],
) -> Result<Vec<RequestResult>, NoMemory>
    ensures { IfOk result (λ results. length results.items ≡ length calls.now) }
{
    let mut results = Vec::new(alloc);
    for _call in calls {
        results.push(RequestResult {
            ok: false,
            evaluated: false,
            returned: List::new(alloc),
            runs: List::new(alloc),
            error: None,
        })?;
    }
    Ok(results)
}
