ghost use Rattle.std.specs.Prelude.{◌≡◌, IfOk};
ghost use Rattle.msb_laws.specs.Traverse.{traverse};
ghost use Rattle.task_trait.specs.Answers.{Gives};
ghost use Rattle.task_trait.specs.Params.{idents, items_of, or_bad};
ghost use Rattle.task_msbuild.specs.Parameters.{
  asked_of,
  projects_of,
  given_properties,
  removed_properties,
  given_targets,
  target_name,
};

use crate::project::{Project, ProjectItem};
use crate::properties::{names, properties};
use msb_values::{Copied, Item, List, Name, NameFault, NoMemory, Text};
use std::alloc::Global;
use task_trait::{Failure, Param, bad_parameter, check_known, items_of, needed_items, truth_at};

/// The parameters of the task as it uses them. (MSBuild task.)
pub(crate) struct Parameters {
    pub(crate) projects: List<Project>,
    pub(crate) targets: List<Name>,
    pub(crate) properties: List<(Name, Text)>,
    /// The properties that the projects don't get from the caller.
    pub(crate) removed: List<Name>,
    pub(crate) parallel: bool,
    pub(crate) separately: bool,
    pub(crate) skip_missing: bool,
    pub(crate) stop_first: bool,
}

// A drop that is written out is proved here alone.
impl Drop for Parameters {
    fn drop(self) {
        let Parameters {
            projects: _,
            targets: _,
            properties: _,
            removed: _,
            parallel: _,
            separately: _,
            skip_missing: _,
            stop_first: _,
        } = self;
    }
}

impl Parameters {
    ghost use Rattle.task_msbuild.specs.Parameters.{parameters_of, values_of};

    /// Reads the parameters that are given: refused is the first in byte order of names that the
    /// task does not have, or else Projects where it is missing, or else the first whose value
    /// can't be used.
    pub(crate) fn read(alloc: Global, dir: &str, params: &[Param]) -> Result<Parameters, Failure>
        ensures { Gives result (parameters_of dir.now params.now) }
    {
        check_known(alloc, "msbuild", params)?;
        let items = needed_items(alloc, params, "projects")?;
        Parameters::of(alloc, dir, params, items)
    }

    fn of(alloc: Global, dir: &str, params: &[Param], items: &[Item]) -> Result<Parameters, Failure>
        ensures { Gives result (values_of dir.now params.now items.now) }
    {
        let asked = project_items(alloc, items)?;
        let parallel = truth_at(alloc, params, "buildinparallel")?;
        let projects = projects(alloc, dir, asked)?;
        let properties = given_properties(alloc, params)?;
        let removed = removed_properties(alloc, params)?;
        let separately = truth_at(alloc, params, "runeachtargetseparately")?;
        let skip_missing = truth_at(alloc, params, "skipnonexistentprojects")?;
        let stop_first = truth_at(alloc, params, "stoponfirstfailure")?;
        let targets = given_targets(alloc, params)?;
        Ok(Parameters {
            projects,
            targets,
            properties,
            removed,
            parallel,
            separately,
            skip_missing,
            stop_first,
        })
    }
}

/// A value, or the failure of the parameter that can't be used.
fn or_bad<T: Drop>(alloc: Global, name: &str, value: Option<T>) -> Result<T, Failure>
    ensures { Gives result (or_bad name.now value) }
{
    match value {
        Some(value) => Ok(value),
        None => Err(bad_parameter(alloc, name)?),
    }
}

fn project_items(alloc: Global, items: &[Item]) -> Result<List<ProjectItem>, Failure>
    ensures { Gives result (asked_of items.now) }
{
    or_bad(
        alloc,
        "additionalproperties",
        ProjectItem::all(alloc, items)?,
    )
}

fn projects(alloc: Global, dir: &str, items: List<ProjectItem>) -> Result<List<Project>, Failure>
    ensures { Gives result (projects_of dir.now items) }
{
    or_bad(alloc, "projects", Project::all(alloc, dir, items)?)
}

fn given_properties(alloc: Global, params: &[Param]) -> Result<List<(Name, Text)>, Failure>
    ensures { Gives result (given_properties params.now) }
{
    let entries = entries(alloc, items_of(params, "properties"))?;
    or_bad(alloc, "properties", properties(alloc, entries.as_slice())?)
}

fn removed_properties(alloc: Global, params: &[Param]) -> Result<List<Name>, Failure>
    ensures { Gives result (removed_properties params.now) }
{
    let entries = entries(alloc, items_of(params, "removeproperties"))?;
    or_bad(alloc, "removeproperties", names(alloc, entries.as_slice())?)
}

fn given_targets(alloc: Global, params: &[Param]) -> Result<List<Name>, Failure>
    ensures { Gives result (given_targets params.now) }
{
    let entries = entries(alloc, items_of(params, "targets"))?;
    or_bad(alloc, "targets", target_names(alloc, entries.as_slice())?)
}

fn entries(alloc: Global, items: &[Item]) -> Result<List<Text>, NoMemory>
    ensures { IfOk result (λ entries. entries ≡ idents items.now) }
{
    let mut entries = List::new(alloc);
    for item in items {
        entries.push(item.ident.copy()?)?;
    }
    Ok(entries)
}

fn target_names(alloc: Global, entries: &[Text]) -> Result<Option<List<Name>>, NoMemory>
    ensures { IfOk result (λ names. names ≡ traverse target_name entries.now) }
{
    let mut names = List::new(alloc);
    for entry in entries {
        match target_name(alloc, entry.as_str())? {
            Some(name) => names.push(name)?,
            None => return Ok(None),
        }
    }
    Ok(Some(names))
}

fn target_name(alloc: Global, text: &str) -> Result<Option<Name>, NoMemory>
    ensures { IfOk result (λ name. name ≡ target_name text.now) }
{
    match Name::read_target(alloc, text) {
        Ok(name) => Ok(Some(name)),
        Err(NameFault::BadName(_)) => Ok(None),
        Err(NameFault::Memory) => Err(NoMemory),
    }
}
