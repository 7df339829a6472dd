ghost use Rattle.std.specs.Prelude.{◌≡◌, IfOk};
ghost use Rattle.msb_condition.specs.Truth.{exists_in, has_trailing_slash};

use msb_paths::{NormalFault, Present, normal_path};
use msb_values::NoMemory;
use std::alloc::Global;

/// Whether a text on a folder is the path of a file, or of a folder that a file lies below.
/// (MSBuild conditions.)
pub(crate) fn exists<F: Present>(
    alloc: Global,
    folder: &str,
    files: &F,
    path: &str,
) -> Result<bool, NoMemory>
    ensures { IfOk result (λ b. b ≡ exists_in folder.now (F.files files.now) path.now) }
{
    if path.is_empty() {
        return Ok(false);
    }
    match normal_path(alloc, folder, path) {
        Ok(path) => Ok(files.there(path.as_str())),
        Err(NormalFault::AboveRoot | NormalFault::Empty | NormalFault::ControlCharacter) => {
            Ok(false)
        }
        Err(NormalFault::Memory) => Err(NoMemory),
    }
}

/// Whether a text ends with `/` or `\`. (MSBuild conditions.)
pub(crate) fn has_trailing_slash(path: &str) -> bool
    ensures { result ≡ has_trailing_slash path.now }
{
    match path.as_bytes().last() {
        Some(byte) => *byte == b'/' || *byte == b'\\',
        None => false,
    }
}
