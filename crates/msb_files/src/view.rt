ghost use Rattle.std.specs.Prelude.{◌≡◌, ◌||◌, IfOk, OnOk, option_copied};
ghost use Rattle.std.specs.List.{list_any};
ghost use Rattle.file_store.specs.Files.{paths_of};
ghost use Rattle.msb_values.specs.Acts.{act_path};
ghost use Rattle.msb_files.specs.Below.{has_file_below};
ghost use Rattle.msb_files.specs.Views.{content, written, stamp, acts_of, paths, with_paths};

use crate::Journal;
use crate::below::is_any_file_below;
use file_store::{File, Tree};
use msb_paths::Present;
use msb_values::{Copied, List, NoMemory, Text};
use std::alloc::Global;
use std::collections::BTreeSet;
use std::marker::Model;

/// Files as a run sees them: those of the tree, with what its request's journal has written over
/// them and without what it has removed. (MSBuild targets; Incremental builds; Delete task.)
#[derive(Drop)]
pub struct FileView<'a> {
    tree: &'a Tree,
    journal: &'a Journal,
}

impl<'a> Model for FileView<'a> {
    ghost use Rattle.msb_files.specs.Views.{View};

    ghost Value = { View };

    ghost view = { λ v. record { files = v.tree.now.files; journal = v.journal.now } };
}

impl<'a> FileView<'a> {
    pub fn of(tree: &'a Tree, journal: &'a Journal) -> FileView<'a>
        ensures { result ≡ record { files = tree.now.files; journal = journal.now } }
    {
        FileView { tree, journal }
    }

    /// The bytes of the file at a path: what the last act on it left, else what the tree has. Takes
    /// no memory.
    pub fn content(&self, path: &str) -> Option<&[u8]>
        ensures { option_copied result ≡ content self.now path.now }
    {
        match self.journal.last_act(path) {
            Some(act) => act.bytes(),
            None => match self.tree.find(path) {
                Some(file) => Some(file.bytes.as_bytes()),
                None => None,
            },
        }
    }

    /// Whether a run has written or removed the path. Takes no memory.
    pub fn has_act(&self, path: &str) -> bool
        ensures { result ≡ written self.now path.now }
    {
        self.journal.last_act(path).is_some()
    }

    /// The stamp of the path in the tree, whether a run has acted on it or not. Takes no memory.
    pub fn stamp(&self, path: &str) -> Option<u64>
        ensures { result ≡ stamp self.now path.now }
    {
        match self.tree.find(path) {
            Some(file) => Some(file.stamp),
            None => None,
        }
    }
}

impl<'a> FileView<'a> {
    /// The paths of all files that there are, in byte order, each once.
    pub fn paths(&self, alloc: Global) -> Result<List<Text>, NoMemory>
        ensures { IfOk result (λ all. all ≡ paths self.now) }
    {
        let mut all = BTreeSet::new(alloc);
        self.journal.add_paths(alloc, &mut all)?;
        add_files(&mut all, self.tree.files.as_slice())?;
        all.retain(|path| self.content(path.as_str()).is_some());
        list(alloc, all)
    }
}

impl<'a> Present for FileView<'a> {
    ghost use Rattle.msb_files.specs.Views.{paths};

    ghost files = { paths };

    fn there(&self, path: &str) -> bool {
        self.content(path).is_some() || self.is_any_below(path)
    }
}

impl<'a> FileView<'a> {
    // Whether there is a file below a folder.
    fn is_any_below(&self, folder: &str) -> bool
        ensures { result
            ≡ (list_any (λ file. has_file_below self.now folder.now file.path) self.now.files
            || list_any (λ act. has_file_below self.now folder.now (act_path act))
            (acts_of self.now.journal)) }
    {
        is_any_file_below(self.tree.files.as_slice(), self, folder)
            || self.journal.is_any_below(self, folder)
    }
}

fn add_files(all: &mut BTreeSet<Text>, files: &[File]) -> Result<(), NoMemory>
    ensures { OnOk result (all.new.keys ≡ with_paths (paths_of files.now) all.old.keys) }
{
    for file in files {
        all.insert(file.path.copy()?)?;
    }
    Ok(())
}

fn list(alloc: Global, all: BTreeSet<Text>) -> Result<List<Text>, NoMemory>
    ensures { IfOk result (λ l. l ≡ all.keys) }
{
    let paths: Vec<Text> = all.into_iter().collect(alloc)?;
    Ok(List::from(paths))
}
