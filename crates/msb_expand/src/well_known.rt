ghost use Rattle.std.specs.Prelude.{◌≡◌, is_some};
ghost use Rattle.msb_values.specs.Pairs.{value_at};
ghost use Rattle.msb_expand.specs.Answers.{GivesAs};
ghost use Rattle.msb_expand.specs.CowTexts.{cow_text};
ghost use Rattle.msb_expand.specs.Metadata.{well_known, well_known_value};
ghost use Rattle.msb_expand.specs.Seen.{seen_item};

use crate::ExpandFault;
use crate::identities::{directory, extension, filename, full_path, identity, relative_dir};
use crate::properties::CowText;
use crate::seen::Seen;
use msb_values::Name;
use std::alloc::Global;

/// The metadata that every item has. (MSBuild well-known item metadata.)
#[derive(Clone, Copy, Debug, PartialEq, Eq)]
pub enum WellKnown {
    Identity,
    FullPath,
    RootDir,
    Directory,
    RelativeDir,
    Filename,
    Extension,
    RecursiveDir,
}

impl WellKnown {
    /// The metadata of this name, which is in lower case.
    pub(crate) fn find(name: &str) -> Option<WellKnown>
        ensures { result ≡ value_at name.now well_known }
    {
        match name {
            "identity" => Some(WellKnown::Identity),
            "fullpath" => Some(WellKnown::FullPath),
            "rootdir" => Some(WellKnown::RootDir),
            "directory" => Some(WellKnown::Directory),
            "relativedir" => Some(WellKnown::RelativeDir),
            "filename" => Some(WellKnown::Filename),
            "extension" => Some(WellKnown::Extension),
            "recursivedir" => Some(WellKnown::RecursiveDir),
            _ => None,
        }
    }

    /// The value for an item, on the folder of the project's file.
    pub(crate) fn value<'a>(
        self,
        alloc: Global,
        project: &str,
        item: &Seen<'a>,
    ) -> Result<CowText<'a>, ExpandFault>
        ensures { GivesAs cow_text result (well_known_value project.now (seen_item item.now) self) }
    {
        let ident = item.ident.as_str();
        match self {
            WellKnown::Identity => Ok(CowText::Owned(identity(alloc, ident)?)),
            WellKnown::FullPath => Ok(CowText::Owned(full_path(alloc, project, ident)?)),
            WellKnown::RootDir => Ok(CowText::Borrowed("/")),
            WellKnown::Directory => Ok(CowText::Owned(directory(alloc, project, ident)?)),
            WellKnown::RelativeDir => Ok(CowText::Owned(relative_dir(alloc, ident)?)),
            WellKnown::Filename => Ok(CowText::Owned(filename(alloc, ident)?)),
            WellKnown::Extension => Ok(CowText::Owned(extension(alloc, ident)?)),
            WellKnown::RecursiveDir => Ok(CowText::Borrowed(item.recursive)),
        }
    }
}

/// Whether every item has a metadata of this name. (MSBuild well-known item metadata.)
pub fn is_well_known(name: &Name) -> bool
    ensures { result ≡ is_some (value_at name.now well_known) }
{
    WellKnown::find(name.key()).is_some()
}
