ghost use Rattle.std.specs.Prelude.{◌≡◌, IfOk};
ghost use Rattle.msb_paths.specs.Join.{is_open, joined};

use crate::{NoRoom, Word};
use std::alloc::Global;

/// Puts `/` between folder and file, unless the folder is empty or ends with one.
pub fn join(alloc: Global, folder: &str, file: &str) -> Result<Word, NoRoom>
    ensures { IfOk result (λ path. path ≡ joined folder.now file.now) }
{
    let mut path = Word::of(alloc, folder)?;
    if !is_open(folder) {
        path.push_str("/")?;
    }
    path.push_str(file)?;
    Ok(path)
}

fn is_open(folder: &str) -> bool
    ensures { result ≡ is_open folder.now }
{
    match folder.as_bytes().last() {
        Some(byte) => *byte == b'/',
        None => true,
    }
}
