ghost use Rattle.std.specs.Prelude.{◌≡◌, [], ◌∷◌, ◌++◌, nat_eq, true};
ghost use Rattle.std.specs.List.{list_any, starts_with};
ghost use Rattle.file_store.specs.Paths.{is_before};
ghost use Rattle.file_store.specs.Files.{are_in_order};

use crate::{File, Tree};
use msb_paths::Present;
use std::iter::once;

impl Present for Tree {
    ghost use Rattle.file_store.specs.Files.{paths_of};

    ghost files = { λ t. paths_of t.files };

    /// It takes a time that grows with the logarithm of the number of files.
    fn there(&self, path: &str) -> bool {
        self.find(path).is_some() || has_below(self.files.as_slice(), path)
    }
}

// Whether a file lies below a folder: if any does, so does the first that does not stand ahead of
// all these.
fn has_below(files: &[File], folder: &str) -> bool
    requires { are_in_order files.now ≡ true }
    ensures { result ≡ list_any (λ file. starts_with nat_eq file.path (folder.now ++ 47 ∷ []))
        files.now }
{
    let first = files.partition_point(|file| is_ahead(file.path.as_str(), folder));
    first < files.len() && is_below(files[first].path.as_str(), folder)
}

/// Whether a path stands ahead of all those below a folder, in byte order.
pub fn is_ahead(path: &str, folder: &str) -> bool
    ensures { result ≡ is_before path.now (folder.now ++ 47 ∷ []) }
{
    path.bytes().cmp(folder.bytes().chain(once(b'/'))).is_lt()
}

/// Whether a path lies below a folder.
pub fn is_below(path: &str, folder: &str) -> bool
    ensures { result ≡ starts_with nat_eq path.now (folder.now ++ 47 ∷ []) }
{
    match path.as_bytes().strip_prefix(folder.as_bytes()) {
        Some(rest) => rest.starts_with(b"/"),
        None => false,
    }
}
