ghost use Rattle.std.specs.Prelude.{◌≡◌, ◌≤◌, ◌++◌, [], IfOk, OnOk, length};
ghost use Rattle.std.specs.List.{flat_map, list_all, zip};
ghost use Rattle.task_msbuild.specs.Gathered.{
  gathered,
  target_outputs,
  call_items,
  call_notes,
  failure_text,
  said_of,
};

use crate::Plan;
use crate::name::literal_name;
use crate::outputs::push_returned;
use msb_values::{Copied, Item, List, NoMemory, Note, Text};
use result_cache::{RequestKey, RequestResult};
use std::alloc::Global;
use task_trait::{Param, TaskOutput};

/// What the MSBuild task gives by its plan and the results of its first calls, in order.
///
/// TargetOutputs holds the items that the calls which succeeded have returned, in call order,
/// without escapes; each item has the metadata MSBuildSourceProjectFile, the full path of its
/// project, and MSBuildSourceTargetName. Behind the plan's notes stands an error note for each call
/// that failed, and the task succeeds where the plan is fine and no call failed. (MSBuild task:
/// TargetOutputs.)
pub fn gather(
    alloc: Global,
    plan: &Plan,
    results: &List<RequestResult>,
) -> Result<TaskOutput, NoMemory>
    requires { length results.now ≤ length plan.now.calls }
    ensures { IfOk result (λ output. output ≡ gathered plan.now results.now) }
{
    let calls = plan.calls.get().as_slice();
    let results = results.as_slice();
    Ok(TaskOutput {
        ok: plan.ok && all_succeeded(results),
        outputs: target_outputs(alloc, items(alloc, calls, results)?)?,
        acts: List::new(alloc),
        notes: all_notes(alloc, plan, results)?,
    })
}

/// The same without TargetOutputs, for a task element that takes none. (MSBuild task:
/// TargetOutputs.)
pub fn gather_without_outputs(
    alloc: Global,
    plan: &Plan,
    results: &List<RequestResult>,
) -> Result<TaskOutput, NoMemory>
    requires { length results.now ≤ length plan.now.calls }
    ensures { IfOk result
        (λ output. output ≡ record (gathered plan.now results.now) { outputs = [] }) }
{
    let results = results.as_slice();
    Ok(TaskOutput {
        ok: plan.ok && all_succeeded(results),
        outputs: List::new(alloc),
        acts: List::new(alloc),
        notes: all_notes(alloc, plan, results)?,
    })
}

/// The notes of the plan, and then those of the calls that failed.
fn all_notes(alloc: Global, plan: &Plan, results: &[RequestResult]) -> Result<List<Note>, NoMemory>
    ensures { IfOk result (λ notes. notes ≡ (gathered plan.now results.now).notes) }
{
    let mut notes = plan.notes.copy()?;
    notes.append(failures(alloc, plan.calls.get().as_slice(), results)?)?;
    Ok(notes)
}

fn target_outputs(alloc: Global, items: List<Item>) -> Result<List<Param>, NoMemory>
    ensures { IfOk result (λ outputs. outputs ≡ target_outputs items) }
{
    let mut outputs = List::new(alloc);
    outputs.push(Param {
        name: literal_name(alloc, "targetoutputs")?,
        items,
    })?;
    Ok(outputs)
}

/// The items that the calls have returned, each with where it comes from; a failed call gives none.
fn items(
    alloc: Global,
    calls: &[RequestKey],
    results: &[RequestResult],
) -> Result<List<Item>, NoMemory>
    ensures { IfOk result (λ items. items ≡ flat_map call_items (zip calls.now results.now)) }
{
    let mut items = List::new(alloc);
    for (key, given) in calls.iter().zip(results) {
        push_items(alloc, &mut items, key, given)?;
    }
    Ok(items)
}

fn push_items(
    alloc: Global,
    items: &mut List<Item>,
    key: &RequestKey,
    given: &RequestResult,
) -> Result<(), NoMemory>
    ensures { OnOk result (items.new ≡ items.old ++ call_items (key.now, given.now)) }
{
    if !given.ok {
        return Ok(());
    }
    push_returned(alloc, items, key, given.returned.as_slice())
}

/// A note for each call that failed.
fn failures(
    alloc: Global,
    calls: &[RequestKey],
    results: &[RequestResult],
) -> Result<List<Note>, NoMemory>
    ensures { IfOk result (λ notes. notes ≡ flat_map call_notes (zip calls.now results.now)) }
{
    let mut notes = List::new(alloc);
    for (key, given) in calls.iter().zip(results) {
        push_failure(alloc, &mut notes, key, given)?;
    }
    Ok(notes)
}

fn push_failure(
    alloc: Global,
    notes: &mut List<Note>,
    key: &RequestKey,
    given: &RequestResult,
) -> Result<(), NoMemory>
    ensures { OnOk result (notes.new ≡ notes.old ++ call_notes (key.now, given.now)) }
{
    if given.ok {
        return Ok(());
    }
    notes.push(Note::Fail(failure(alloc, key, given)?))
}

fn failure(alloc: Global, key: &RequestKey, given: &RequestResult) -> Result<Text, NoMemory>
    ensures { IfOk result
        (λ text. text ≡ failure_text key.now given.now.evaluated given.now.error) }
{
    match &given.error {
        Some(text) if given.evaluated => said(alloc, key, text.as_str()),
        Some(fault) => fault.copy(),
        None => said(alloc, key, "request failed"),
    }
}

/// What is said of a request.
fn said(alloc: Global, key: &RequestKey, text: &str) -> Result<Text, NoMemory>
    ensures { IfOk result (λ said. said ≡ said_of key.now text.now) }
{
    let mut said = key.instance.to_text(alloc)?;
    said.push_str(": ")?;
    said.push_str(text)?;
    Ok(said)
}

fn all_succeeded(results: &[RequestResult]) -> bool
    ensures { result ≡ list_all (λ given. given.ok) results.now }
{
    results.iter().all(|given| given.ok)
}
