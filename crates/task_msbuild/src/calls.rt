ghost use Rattle.std.specs.Prelude.{
  ◌≡◌,
  ◌<◌,
  [],
  ◌∷◌,
  ◌++◌,
  not,
  length,
  map,
  true,
  IfOk,
  IfSome,
  OnOk,
};
ghost use Rattle.std.specs.List.{flat_map, list_all, position};
ghost use Rattle.task_msbuild.specs.Calls.{
  is_there,
  through_missing,
  looked_up,
  target_lists,
  request_of,
  instance_of,
  calls_of,
  all_calls,
};
ghost use Rattle.task_msbuild.specs.GlobalProperties.{shared_globals};

use crate::parameters::Parameters;
use crate::project::Project;
use crate::properties::{put_all, remove_all};
use file_store::Tree;
use msb_values::{Copied, InstanceKey, List, Name, NoMemory, Pairs};
use result_cache::RequestKey;
use std::alloc::Global;

/// Whether the file of the project is in the tree.
pub(crate) fn is_there(tree: &Tree, project: &Project) -> bool
    ensures { result ≡ is_there tree.now.files project.now }
{
    tree.find(project.path.as_str()).is_some()
}

/// The projects that are looked up: where the first that is missing ends the list, those through
/// it.
pub(crate) fn look_up<'a>(tree: &Tree, parameters: &'a Parameters) -> &'a [Project]
    ensures { result.now ≡ looked_up tree.now.files parameters.now }
{
    let projects = parameters.projects.as_slice();
    if parameters.stop_first && !parameters.parallel && !parameters.skip_missing {
        through_missing(tree, projects)
    } else {
        projects
    }
}

fn through_missing<'a>(tree: &Tree, projects: &'a [Project]) -> &'a [Project]
    ensures { result.now ≡ through_missing tree.now.files projects.now }
{
    match first_missing(tree, projects) {
        Some(at) => &projects[..at + 1],
        None => projects,
    }
}

fn first_missing(tree: &Tree, projects: &[Project]) -> Option<usize>
    ensures value { result ≡ position (λ project. not (is_there tree.now.files project))
        projects.now }
    ensures within { IfSome result (λ at. at < length projects.now) }
{
    projects.iter().position(|project| !is_there(tree, project))
}

/// The requests that the task calls: those of each project that is looked up and is there. Where
/// all are known to be there, their files aren't looked up once more. (MSBuild task.)
pub(crate) fn all_calls(
    alloc: Global,
    tree: &Tree,
    globals: &Pairs,
    parameters: &Parameters,
    all_there: bool,
) -> Result<List<RequestKey>, NoMemory>
    requires { all_there ≡ true →
        list_all (is_there tree.now.files) (looked_up tree.now.files parameters.now) ≡ true }
    ensures { IfOk result (λ calls. calls ≡ all_calls tree.now.files globals.now parameters.now) }
{
    let shared = shared_globals(globals, parameters)?;
    let lists = target_lists(alloc, parameters)?;
    let projects = look_up(tree, parameters);
    if all_there {
        return calls_of_all(alloc, &shared, lists.as_slice(), projects);
    }
    calls_of(alloc, tree, &shared, lists.as_slice(), projects)
}

/// The requests of these projects, all of which are there, in order.
fn calls_of_all(
    alloc: Global,
    shared: &Pairs,
    lists: &[List<Name>],
    projects: &[Project],
) -> Result<List<RequestKey>, NoMemory>
    ensures { IfOk result (λ calls. calls
        ≡ flat_map (λ project. map (request_of (instance_of shared.now project)) lists.now)
        projects.now) }
{
    let mut calls = List::new(alloc);
    for project in projects {
        push_calls(&mut calls, &instance(alloc, shared, project)?, lists)?;
    }
    Ok(calls)
}

/// The requests of those of these projects that are there, in order, with these global properties
/// of all and these targets of each.
fn calls_of(
    alloc: Global,
    tree: &Tree,
    shared: &Pairs,
    lists: &[List<Name>],
    projects: &[Project],
) -> Result<List<RequestKey>, NoMemory>
    ensures { IfOk result
        (λ calls. calls ≡ flat_map (calls_of tree.now.files shared.now lists.now) projects.now) }
{
    let mut calls = List::new(alloc);
    for project in projects {
        if is_there(tree, project) {
            push_calls(&mut calls, &instance(alloc, shared, project)?, lists)?;
        }
    }
    Ok(calls)
}

fn push_calls(
    calls: &mut List<RequestKey>,
    instance: &InstanceKey,
    lists: &[List<Name>],
) -> Result<(), NoMemory>
    ensures { OnOk result (calls.new ≡ calls.old ++ map (request_of instance.now) lists.now) }
{
    for targets in lists {
        calls.push(RequestKey {
            instance: instance.copy()?,
            targets: targets.copy()?,
            named: !targets.is_empty(),
        })?;
    }
    Ok(())
}

/// The project with its global properties.
fn instance(alloc: Global, shared: &Pairs, project: &Project) -> Result<InstanceKey, NoMemory>
    ensures { IfOk result (λ key. key ≡ instance_of shared.now project.now) }
{
    let mut globals = shared.copy()?;
    put_all(&mut globals, project.item.additional.as_slice())?;
    InstanceKey::new(alloc, project.path.copy()?, globals)
}

/// The global properties that all projects get.
fn shared_globals(globals: &Pairs, parameters: &Parameters) -> Result<Pairs, NoMemory>
    ensures { IfOk result
        (λ shared. shared ≡ shared_globals parameters.now.removed parameters.now.properties
        globals.now) }
{
    let mut shared = globals.copy()?;
    remove_all(&mut shared, parameters.removed.as_slice())?;
    put_all(&mut shared, parameters.properties.as_slice())?;
    Ok(shared)
}

/// The targets of each call of a project.
fn target_lists(alloc: Global, parameters: &Parameters) -> Result<List<List<Name>>, NoMemory>
    ensures { IfOk result
        (λ lists. lists ≡ target_lists parameters.now.separately parameters.now.targets) }
{
    let targets = &parameters.targets;
    if parameters.separately && !targets.is_empty() {
        return each_alone(alloc, targets.as_slice());
    }
    let mut lists = List::new(alloc);
    lists.push(targets.copy()?)?;
    Ok(lists)
}

fn each_alone(alloc: Global, targets: &[Name]) -> Result<List<List<Name>>, NoMemory>
    ensures { IfOk result (λ lists. lists ≡ map (λ target. target ∷ []) targets.now) }
{
    let mut lists = List::new(alloc);
    for target in targets {
        let mut alone = List::new(alloc);
        alone.push(target.copy()?)?;
        lists.push(alone)?;
    }
    Ok(lists)
}
