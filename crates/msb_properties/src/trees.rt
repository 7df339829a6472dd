ghost use Rattle.std.specs.Prelude.{◌≡◌, Ok, true};
ghost use Rattle.msb_elements.specs.Projects.{project_in};
ghost use Rattle.msb_elements.specs.View.{view};
ghost use Rattle.build_world.specs.Answers.{GivesFault};
ghost use Rattle.build_world.specs.Readings.{project_of};
ghost use Rattle.msb_properties.specs.ElementSets.{read-once};

use build_world::{EvalFault, read_file};
use file_store::File;
use indexmap::IndexMap;
use msb_elements::Element;
use msb_values::{Copied, NoMemory, Shared, Text, Text8};
use once_table::{Fits, OnceTable};
use std::alloc::Global;

/// The element tree of a file, with the bytes from which it was read.
#[derive(Drop)]
pub(crate) struct KeptTree {
    bytes: Text8,
    root: Element,
    ghost is_read: { project_in bytes ≡ Ok (view root) } by { read-once bytes (view root) },
}

impl KeptTree {
    /// Reads the tree of a file, or says which element of it has the first fault.
    fn read(alloc: Global, file: &File) -> Result<Shared<KeptTree>, EvalFault>
        ensures { GivesFault (λ kept. view kept.root) result (project_of file.now) }
    {
        let root = read_file(alloc, file)?.root;
        let bytes = file.bytes.copy()?;
        Ok(Shared::new(alloc, KeptTree { bytes, root })?)
    }

    /// Whether the tree was read from the bytes of this file.
    fn is_of(&self, file: &File) -> bool
        ensures { result ≡ true → project_of file.now ≡ Ok (view self.now.root) }
    {
        self.bytes.as_bytes() == file.bytes.as_bytes()
    }
}

/// A tree that was read fits any path, since it says itself from which bytes it was read.
struct AnyPath;

impl Fits<Text, Shared<KeptTree>, ()> for AnyPath {
    ghost fits = { λ world path kept. Unit {0} };

    ghost equal_keys = { λ world one other kept equal. (λ fits. fits, λ fits. fits) };
}

type SharedTrees = OnceTable<Text, Shared<KeptTree>, (), AnyPath>;

/// Element trees of files that were read, so that none is read twice: each is found by its path,
/// here or among those that several nodes share.
///
/// A tree is given only for the bytes from which it was read: so what is answered is what
/// `read_file` gives, whichever files were read before, and no contract tells what is kept.
pub struct ElementTrees {
    /// By paths.
    trees: IndexMap<Text, Shared<KeptTree>>,
    shared: Option<SharedTrees>,
}

// A drop that is written out is proved here alone.
impl Drop for ElementTrees {
    fn drop(self) {
        let ElementTrees {
            trees: _,
            shared: _,
        } = self;
    }
}

impl ElementTrees {
    /// No tree is kept.
    pub fn new(alloc: Global) -> ElementTrees {
        ElementTrees {
            trees: IndexMap::new(alloc),
            shared: None,
        }
    }

    /// These trees, which `beside` shares with other nodes, as all that are read from now on.
    pub fn sharing(self, alloc: Global) -> Result<ElementTrees, NoMemory> {
        let mut shared = OnceTable::open(alloc, &())?;
        shared.put_all(&self.trees)?;
        let ElementTrees { trees, shared: _ } = self;
        Ok(ElementTrees {
            trees,
            shared: Some(shared),
        })
    }

    /// The trees of another node, which shares those that are shared here.
    pub fn beside(&mut self, alloc: Global) -> Result<ElementTrees, NoMemory> {
        let shared = match &mut self.shared {
            Some(shared) => shared.split(&())?,
            None => None,
        };
        Ok(ElementTrees {
            trees: IndexMap::new(alloc),
            shared,
        })
    }

    /// The root of a file, or which element of it has the first fault. Where there is no memory to
    /// keep the tree, that is want of memory.
    pub(crate) fn read(&mut self, alloc: Global, file: &File) -> Result<Element, EvalFault>
        ensures { GivesFault view result (project_of file.now) }
    {
        let kept = self.kept(alloc, file)?;
        Ok(kept.get().root.copy(alloc)?)
    }

    fn kept(&mut self, alloc: Global, file: &File) -> Result<Shared<KeptTree>, EvalFault>
        ensures { GivesFault (λ kept. view kept.root) result (project_of file.now) }
    {
        if let Some(kept) = self.trees.get(&file.path) {
            if kept.get().is_of(file) {
                return Ok(kept.copy()?);
            }
        }
        let kept = match &mut self.shared {
            Some(shared) => read_once(alloc, shared, file)?,
            None => KeptTree::read(alloc, file)?,
        };
        self.trees.insert(file.path.copy()?, kept.copy()?)?;
        Ok(kept)
    }
}

/// The tree of a file, which is read by the first node that needs it.
fn read_once(
    alloc: Global,
    shared: &mut SharedTrees,
    file: &File,
) -> Result<Shared<KeptTree>, EvalFault>
    ensures { GivesFault (λ kept. view kept.root) result (project_of file.now) }
{
    match shared.find_or_make(&file.path, || KeptTree::read(alloc, file))? {
        Ok(kept) if kept.get().is_of(file) => Ok(kept),
        Ok(_) => KeptTree::read(alloc, file),
        Err(fault) => Err(fault),
    }
}
