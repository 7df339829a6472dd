ghost use Rattle.std.specs.Prelude.{◌≡◌, IfOk};
ghost use Rattle.msb_laws.specs.Traverse.{traverse};

use crate::properties::additional;
use msb_paths::{NormalFault, normal_path};
use msb_values::{Copied, Item, List, Name, NoMemory, Text};
use std::alloc::Global;

/// A project item, with the properties that its metadata AdditionalProperties gives. (MSBuild
/// task.)
pub(crate) struct ProjectItem {
    /// The identity, as it is given.
    pub(crate) text: Text,
    pub(crate) additional: List<(Name, Text)>,
}

// A drop that is written out is proved here alone.
impl Drop for ProjectItem {
    fn drop(self) {
        let ProjectItem {
            text: _,
            additional: _,
        } = self;
    }
}

impl ProjectItem {
    ghost use Rattle.task_msbuild.specs.Parameters.{project_item};

    /// The item, if each entry of its metadata can be used.
    fn of(alloc: Global, item: &Item) -> Result<Option<ProjectItem>, NoMemory>
        ensures { IfOk result (λ asked. asked ≡ project_item item.now) }
    {
        match additional(alloc, item)? {
            Some(additional) => Ok(Some(ProjectItem {
                text: item.ident.copy()?,
                additional,
            })),
            None => Ok(None),
        }
    }

    /// These items, if all can be used.
    pub(crate) fn all(alloc: Global, items: &[Item]) -> Result<Option<List<ProjectItem>>, NoMemory>
        ensures { IfOk result (λ asked. asked ≡ traverse project_item items.now) }
    {
        let mut asked = List::new(alloc);
        for item in items {
            match ProjectItem::of(alloc, item)? {
                Some(item) => asked.push(item)?,
                None => return Ok(None),
            }
        }
        Ok(Some(asked))
    }
}

/// A project that is to be called. (MSBuild task.)
pub(crate) struct Project {
    pub(crate) item: ProjectItem,
    /// The path of its file.
    pub(crate) path: Text,
}

// A drop that is written out is proved here alone.
impl Drop for Project {
    fn drop(self) {
        let Project { item: _, path: _ } = self;
    }
}

impl Project {
    ghost use Rattle.task_msbuild.specs.Parameters.{project_of};

    /// The project that an item names, if it names a path from the caller's folder.
    fn of(alloc: Global, dir: &str, item: ProjectItem) -> Result<Option<Project>, NoMemory>
        ensures { IfOk result (λ project. project ≡ project_of dir.now item) }
    {
        match normal_path(alloc, dir, item.text.as_str()) {
            Ok(path) => Ok(Some(Project {
                item,
                path: Text::of(alloc, path.as_str())?,
            })),
            Err(NormalFault::Memory) => Err(NoMemory),
            Err(_) => Ok(None),
        }
    }

    /// The projects that these items name, if all name paths.
    pub(crate) fn all(
        alloc: Global,
        dir: &str,
        items: List<ProjectItem>,
    ) -> Result<Option<List<Project>>, NoMemory>
        ensures { IfOk result (λ projects. projects ≡ traverse (project_of dir.now) items) }
    {
        let mut projects = List::new(alloc);
        for item in items.into_vec() {
            match Project::of(alloc, dir, item)? {
                Some(project) => projects.push(project)?,
                None => return Ok(None),
            }
        }
        Ok(Some(projects))
    }
}
