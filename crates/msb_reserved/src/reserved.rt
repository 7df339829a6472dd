ghost use Rattle.std.specs.Prelude.{◌≡◌, is_some, IfOk};
ghost use Rattle.msb_reserved.specs.Reserved.{is_reserved};

use crate::parts::{extension, file_of, filename, folder_of, from_root, relative_dir};
use msb_values::{Name, NoMemory, Text, escape};
use std::alloc::Global;

/// A property that the engine itself sets. (MSBuild reserved and well-known properties.)
#[derive(Clone, Copy, Debug, PartialEq, Eq)]
pub enum Reserved {
    ProjectDirectory,
    ProjectFile,
    ProjectName,
    ProjectExtension,
    ProjectFullPath,
    ThisFile,
    ThisFileName,
    ThisFileFullPath,
    ThisFileDirectory,
}

impl Reserved {
    ghost use Rattle.msb_values.specs.Pairs.{value_at};
    ghost use Rattle.msb_values.specs.Escapes.{escaped};
    ghost use Rattle.msb_reserved.specs.Reserved.{reserved, reserved_value};

    /// The property of this name, which is in lower case.
    pub fn find(name: &str) -> Option<Reserved>
        ensures { result ≡ value_at name.now reserved }
    {
        match name {
            "msbuildprojectdirectory" => Some(Reserved::ProjectDirectory),
            "msbuildprojectfile" => Some(Reserved::ProjectFile),
            "msbuildprojectname" => Some(Reserved::ProjectName),
            "msbuildprojectextension" => Some(Reserved::ProjectExtension),
            "msbuildprojectfullpath" => Some(Reserved::ProjectFullPath),
            "msbuildthisfile" => Some(Reserved::ThisFile),
            "msbuildthisfilename" => Some(Reserved::ThisFileName),
            "msbuildthisfilefullpath" => Some(Reserved::ThisFileFullPath),
            "msbuildthisfiledirectory" => Some(Reserved::ThisFileDirectory),
            _ => None,
        }
    }

    /// The value, escaped, by the project's file and the file of the element.
    pub fn value(self, alloc: Global, project: &str, file: &str) -> Result<Text, NoMemory>
        ensures { IfOk result (λ text. text ≡ escaped (reserved_value project.now file.now self)) }
    {
        let value = self.plain_value(alloc, project, file)?;
        escape(alloc, value.as_str())
    }

    fn plain_value(self, alloc: Global, project: &str, file: &str) -> Result<Text, NoMemory>
        ensures { IfOk result (λ text. text ≡ reserved_value project.now file.now self) }
    {
        match self {
            Reserved::ProjectDirectory => from_root(alloc, folder_of(project)),
            Reserved::ProjectFile => file_of(alloc, project),
            Reserved::ProjectName => filename(alloc, project),
            Reserved::ProjectExtension => extension(alloc, project),
            Reserved::ProjectFullPath => from_root(alloc, project),
            Reserved::ThisFile => file_of(alloc, file),
            Reserved::ThisFileName => filename(alloc, file),
            Reserved::ThisFileFullPath => from_root(alloc, file),
            Reserved::ThisFileDirectory => {
                let folder = relative_dir(alloc, file)?;
                from_root(alloc, folder.as_str())
            }
        }
    }
}

/// Whether the engine itself sets the property of this name. (MSBuild reserved and well-known
/// properties.)
pub fn is_reserved(name: &Name) -> bool
    ensures { result ≡ is_reserved name.now }
{
    Reserved::find(name.key()).is_some()
}
