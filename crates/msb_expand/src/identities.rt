ghost use Rattle.std.specs.Prelude.{◌≡◌, IfOk};
ghost use Rattle.msb_paths.specs.Parts as part;
ghost use Rattle.msb_values.specs.Escapes.{escaped, unescaped};
ghost use Rattle.msb_expand.specs.declared.faults.ExpandFault.TheVariants.{BadPath};
ghost use Rattle.msb_expand.specs.Answers.{Gives};
ghost use Rattle.msb_expand.specs.Metadata.{path_of, full_path, directory};

use crate::ExpandFault;
use msb_paths::{NormalFault, Word, normal_path};
use msb_values::{NoMemory, Text, escape, unescape};
use std::alloc::Global;

/// The identity with its special characters escaped, and no others.
pub(crate) fn identity(alloc: Global, ident: &str) -> Result<Text, NoMemory>
    ensures { IfOk result (λ text. text ≡ escaped (unescaped ident.now)) }
{
    let plain = unescape(alloc, ident)?;
    escape(alloc, plain.as_str())
}

pub(crate) fn relative_dir(alloc: Global, ident: &str) -> Result<Text, NoMemory>
    ensures { IfOk result (λ text. text ≡ escaped (part.relative_dir (unescaped ident.now))) }
{
    let plain = unescape(alloc, ident)?;
    let folder = msb_reserved::relative_dir(alloc, plain.as_str())?;
    escape(alloc, folder.as_str())
}

pub(crate) fn filename(alloc: Global, ident: &str) -> Result<Text, NoMemory>
    ensures { IfOk result (λ text. text ≡ escaped (part.filename (unescaped ident.now))) }
{
    let plain = unescape(alloc, ident)?;
    let name = msb_reserved::filename(alloc, plain.as_str())?;
    escape(alloc, name.as_str())
}

pub(crate) fn extension(alloc: Global, ident: &str) -> Result<Text, NoMemory>
    ensures { IfOk result (λ text. text ≡ escaped (part.extension (unescaped ident.now))) }
{
    let plain = unescape(alloc, ident)?;
    let extension = msb_reserved::extension(alloc, plain.as_str())?;
    escape(alloc, extension.as_str())
}

/// The path of the identity from the root of the store.
pub(crate) fn full_path(alloc: Global, project: &str, ident: &str) -> Result<Text, ExpandFault>
    ensures { Gives result (full_path project.now ident.now) }
{
    let plain = unescape(alloc, ident)?;
    let path = path_of(alloc, project, plain.as_str())?;
    let full = msb_reserved::from_root(alloc, path.as_str())?;
    Ok(escape(alloc, full.as_str())?)
}

/// The folder of the identity's path, which ends with `/`.
pub(crate) fn directory(alloc: Global, project: &str, ident: &str) -> Result<Text, ExpandFault>
    ensures { Gives result (directory project.now ident.now) }
{
    let plain = unescape(alloc, ident)?;
    let path = path_of(alloc, project, plain.as_str())?;
    let folder = msb_reserved::relative_dir(alloc, path.as_str())?;
    Ok(escape(alloc, folder.as_str())?)
}

/// An identity as a path of the store, on the project's folder.
fn path_of(alloc: Global, project: &str, ident: &str) -> Result<Word, ExpandFault>
    ensures { Gives result (path_of project.now ident.now) }
{
    match normal_path(alloc, msb_reserved::folder_of(project), ident) {
        Ok(path) => Ok(path),
        Err(NormalFault::AboveRoot | NormalFault::Empty | NormalFault::ControlCharacter) => {
            Err(bad_path(alloc, ident)?)
        }
        Err(NormalFault::Memory) => Err(ExpandFault::Memory),
    }
}

fn bad_path(alloc: Global, ident: &str) -> Result<ExpandFault, NoMemory>
    ensures { IfOk result (λ fault. fault ≡ BadPath ident.now) }
{
    Ok(ExpandFault::BadPath(Text::of(alloc, ident)?))
}
