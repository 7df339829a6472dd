ghost use Rattle.std.specs.Prelude.{
  ◌≡◌,
  ◌↔◌,
  ◌+◌,
  option_copied,
  IsSome,
  IfSome,
  IfOk,
  IfErr,
  OnOk,
  OnErr,
  true,
};
ghost use Rattle.file_store.specs.Files.{are_in_order, file_at};
ghost use Rattle.file_store.specs.Writes.{put_in, taken_out, IsPlace};

use msb_values::{Copied, List, NoMemory, Text, Text8};
use std::alloc::Global;
use std::mem;

/// A file: its path from the root of the store, its bytes, and the time of its last change in a
/// unit of the store.
pub struct File {
    pub path: Text,
    pub bytes: Text8,
    pub stamp: u64,
}

// A drop that is written out is proved here alone.
impl Drop for File {
    fn drop(self) {
        let File {
            path: _,
            bytes: _,
            stamp: _,
        } = self;
    }
}

impl Copied for File {
    fn copy(&self) -> Result<File, NoMemory> {
        Ok(File {
            path: self.path.copy()?,
            bytes: self.bytes.copy()?,
            stamp: self.stamp,
        })
    }
}

/// Files in byte order of their paths, which are distinct.
#[derive(Drop)]
pub struct Tree {
    pub files: List<File>,
    pub ghost in_order: { are_in_order files ≡ true },
}

impl Tree {
    /// The tree of these files, if they stand in byte order of their paths and no path comes twice.
    pub fn of(files: List<File>) -> Option<Tree>
        ensures exact { IsSome result ↔ (are_in_order files ≡ true) }
        ensures whole { IfSome result (λ t. t.files ≡ files) }
    {
        if is_in_order(files.as_slice()) {
            return Some(Tree { files });
        }
        None
    }

    /// The file at a path. It takes a time that grows with the logarithm of the number of files.
    pub fn find(&self, path: &str) -> Option<&File>
        ensures { option_copied result ≡ file_at path.now self.now.files }
    {
        let files = self.files.as_slice();
        match files.binary_search_by(|file| file.path.as_str().cmp(path)) {
            Ok(at) => Some(&files[at]),
            Err(_) => None,
        }
    }
}

impl Tree {
    // Puts a file at its path, in place of the one that may be there. Want of memory leaves the
    // tree as it was.
    pub(crate) fn put(&mut self, alloc: Global, file: File) -> Result<(), NoMemory>
        ensures ok { OnOk result (self.new.files
            ≡ put_in file.path file.bytes file.stamp self.old.files) }
        ensures err { OnErr result (self.new.files ≡ self.old.files) }
    {
        let none = Tree {
            files: List::new(alloc),
        };
        let mut files = mem::replace(self, none).files.into_vec();
        let done = put_at_place(&mut files, file);
        *self = Tree {
            files: List::from(files),
        };
        done
    }

    // Takes the file at a path away, if one is there.
    pub(crate) fn remove(&mut self, alloc: Global, path: &str)
        ensures { self.new.files ≡ taken_out path.now self.old.files }
    {
        let none = Tree {
            files: List::new(alloc),
        };
        let mut files = mem::replace(self, none).files.into_vec();
        take_from_place(&mut files, path);
        *self = Tree {
            files: List::from(files),
        };
    }
}

impl Copied for Tree {
    fn copy(&self) -> Result<Tree, NoMemory> {
        Ok(Tree {
            files: self.files.copy()?,
        })
    }
}

fn put_at_place(files: &mut Vec<File>, file: File) -> Result<(), NoMemory>
    requires { are_in_order files.old.items ≡ true }
    ensures ok { OnOk result (files.new.items
        ≡ put_in file.path file.bytes file.stamp files.old.items) }
    ensures err { OnErr result (files.new.items ≡ files.old.items) }
{
    match place_of(files, file.path.as_str()) {
        Ok(at) => files[at] = file,
        Err(at) => files.insert(at, file)?,
    }
    Ok(())
}

fn take_from_place(files: &mut Vec<File>, path: &str)
    requires { are_in_order files.old.items ≡ true }
    ensures { files.new.items ≡ taken_out path.now files.old.items }
{
    if let Ok(at) = place_of(files, path) {
        files.remove(at);
    }
}

// The place of the file at a path, or the place where one would stand.
fn place_of(files: &[File], path: &str) -> Result<usize, usize>
    requires { are_in_order files.now ≡ true }
    ensures there { IfOk result (λ at. IsPlace path.now files.now at (at + 1)) }
    ensures missing { IfErr result (λ at. IsPlace path.now files.now at at) }
{
    files.binary_search_by(|file| file.path.as_str().cmp(path))
}

fn is_in_order(files: &[File]) -> bool
    ensures { result ≡ are_in_order files.now }
{
    files.is_sorted_by(|a, b| a.path < b.path)
}
