//! Whether a run sees a file below a folder. Paths below a folder stand together in byte order, and
//! are searched by halves.

ghost use Rattle.std.specs.Prelude.{◌≡◌, true};
ghost use Rattle.std.specs.List.{list_any};
ghost use Rattle.file_store.specs.Files.{are_in_order};
ghost use Rattle.msb_files.specs.Below.{has_file_below};

use crate::FileView;
use file_store::{File, is_ahead, is_below};

/// Whether one of the files of a tree lies below a folder, and the view has a file there.
pub(crate) fn is_any_file_below(files: &[File], view: &FileView<'_>, folder: &str) -> bool
    requires { are_in_order files.now ≡ true }
    ensures { result ≡ list_any (λ file. has_file_below view.now folder.now file.path) files.now }
{
    let first = files.partition_point(|file| is_ahead(file.path.as_str(), folder));
    for at in first..files.len() {
        let path = files[at].path.as_str();
        if !is_below(path, folder) {
            return false;
        }
        if view.content(path).is_some() {
            return true;
        }
    }
    false
}
