ghost use Rattle.std.specs.Prelude.{◌≡◌, ◌++◌, ◌==◌, ◌&&◌, length, not, IfOk, OnOk};
ghost use Rattle.task_msbuild.specs.Plans.{
  refused,
  missing_notes,
  all_missing_notes,
  planned,
  plan_of,
};

use crate::Plan;
use crate::calls::{all_calls, is_there, look_up};
use crate::parameters::Parameters;
use crate::project::Project;
use file_store::Tree;
use msb_values::{Copied, List, NoMemory, Note, Pairs, Shared};
use std::alloc::Global;
use task_trait::{Failure, ToolInput};

/// The task's name, as its notes have it.
const TASK: &str = "msbuild";

/// What the MSBuild task is to do in a project of this folder and with these global properties: the
/// requests that it calls, in order, and what it says before the first call.
///
/// The texts of the input stand without escapes. A request has the caller's global properties, less
/// those of RemoveProperties, then those of Properties, then those of the metadata
/// AdditionalProperties of its project, with values escaped. The task makes no call and fails with
/// a note where it does not have a parameter, Projects is missing, or a value can't be used. A
/// project whose file is not in the tree fails the task with a note, or is passed over where
/// SkipNonexistentProjects is true. (MSBuild task.)
pub fn plan(
    alloc: Global,
    tree: &Tree,
    dir: &str,
    globals: &Pairs,
    input: &ToolInput,
) -> Result<Plan, NoMemory>
    ensures { IfOk result
        (λ plan. plan ≡ plan_of tree.now.files dir.now globals.now input.now.params) }
{
    match Parameters::read(alloc, dir, input.params.as_slice()) {
        Ok(parameters) => plan_calls(alloc, tree, globals, &parameters),
        Err(Failure::Memory) => Err(NoMemory),
        Err(failure) => refuse(alloc, &failure),
    }
}

fn plan_calls(
    alloc: Global,
    tree: &Tree,
    globals: &Pairs,
    parameters: &Parameters,
) -> Result<Plan, NoMemory>
    ensures { IfOk result (λ plan. plan ≡ planned tree.now.files globals.now parameters.now) }
{
    let notes = missing_notes(alloc, tree, parameters)?;
    let all_there = are_all_there(&notes, parameters);
    let calls = all_calls(alloc, tree, globals, parameters, all_there)?;
    Ok(Plan {
        calls: Shared::new(alloc, calls)?,
        parallel: parameters.parallel,
        stop_first: parameters.stop_first && !parameters.parallel,
        ok: notes.is_empty(),
        notes,
    })
}

// Whether the notes on missing projects show that all are there: one that is passed over has none.
fn are_all_there(notes: &List<Note>, parameters: &Parameters) -> bool
    ensures { result ≡ ((length notes.now == 0) && not parameters.now.skip_missing) }
{
    notes.is_empty() && !parameters.skip_missing
}

fn refuse(alloc: Global, failure: &Failure) -> Result<Plan, NoMemory>
    ensures { IfOk result (λ plan. plan ≡ refused failure.now) }
{
    let mut notes = List::new(alloc);
    notes.push(failure.note(alloc, TASK)?)?;
    Ok(Plan {
        calls: Shared::new(alloc, List::new(alloc))?,
        parallel: false,
        stop_first: false,
        notes,
        ok: false,
    })
}

/// A note for each project that is looked up and is missing, unless these are passed over.
fn missing_notes(
    alloc: Global,
    tree: &Tree,
    parameters: &Parameters,
) -> Result<List<Note>, NoMemory>
    ensures { IfOk result (λ notes. notes ≡ all_missing_notes tree.now.files parameters.now) }
{
    let mut notes = List::new(alloc);
    for project in look_up(tree, parameters) {
        push_missing(alloc, &mut notes, tree, parameters.skip_missing, project)?;
    }
    Ok(notes)
}

/// Adds the note of a project, if it is missing and isn't passed over.
fn push_missing(
    alloc: Global,
    notes: &mut List<Note>,
    tree: &Tree,
    skip_missing: bool,
    project: &Project,
) -> Result<(), NoMemory>
    ensures { OnOk result
        (notes.new ≡ notes.old ++ missing_notes tree.now.files skip_missing project.now) }
{
    if is_there(tree, project) || skip_missing {
        return Ok(());
    }
    let failure = Failure::NoProject(project.item.text.copy()?);
    notes.push(failure.note(alloc, TASK)?)
}
