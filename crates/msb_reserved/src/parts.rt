ghost use Rattle.std.specs.Prelude.{◌≡◌, IfOk};
ghost use Rattle.msb_paths.specs.Parts.{file_of, relative_dir, filename, extension};
ghost use Rattle.msb_reserved.specs.Reserved.{folder_of, from_root};

use msb_paths::Split;
use msb_values::{NoMemory, Text};
use std::alloc::Global;

/// The folder of a file, which is empty at the root of the store.
pub fn folder_of(path: &str) -> &str
    ensures { result.now ≡ folder_of path.now }
{
    match path.rfind('/') {
        Some(at) => &path[..at],
        None => "",
    }
}

/// The path with a leading `/`.
pub fn from_root(alloc: Global, path: &str) -> Result<Text, NoMemory>
    ensures { IfOk result (λ text. text ≡ from_root path.now) }
{
    let mut text = Text::of(alloc, "/")?;
    text.push_str(path)?;
    Ok(text)
}

/// What follows the last separator.
pub(crate) fn file_of(alloc: Global, path: &str) -> Result<Text, NoMemory>
    ensures { IfOk result (λ text. text ≡ file_of path.now) }
{
    let split = split(alloc, path)?;
    let mut name = Text::of(alloc, split.filename.as_str())?;
    name.push_str(split.extension.as_str())?;
    Ok(name)
}

/// The path through its last separator.
pub fn relative_dir(alloc: Global, path: &str) -> Result<Text, NoMemory>
    ensures { IfOk result (λ text. text ≡ relative_dir path.now) }
{
    let split = split(alloc, path)?;
    Text::of(alloc, split.relative_dir.as_str())
}

/// What follows the last separator, up to its last `.`.
pub fn filename(alloc: Global, path: &str) -> Result<Text, NoMemory>
    ensures { IfOk result (λ text. text ≡ filename path.now) }
{
    let split = split(alloc, path)?;
    Text::of(alloc, split.filename.as_str())
}

/// What follows the last separator, from its last `.` on.
pub fn extension(alloc: Global, path: &str) -> Result<Text, NoMemory>
    ensures { IfOk result (λ text. text ≡ extension path.now) }
{
    let split = split(alloc, path)?;
    Text::of(alloc, split.extension.as_str())
}

fn split(alloc: Global, path: &str) -> Result<Split, NoMemory>
    ensures relative_dir { IfOk result (λ split. split.relative_dir ≡ relative_dir path.now) }
    ensures filename { IfOk result (λ split. split.filename ≡ filename path.now) }
    ensures extension { IfOk result (λ split. split.extension ≡ extension path.now) }
{
    match msb_paths::parts(alloc, path) {
        Ok(split) => Ok(split),
        Err(_) => Err(NoMemory),
    }
}
