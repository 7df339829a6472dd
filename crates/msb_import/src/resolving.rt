ghost use Rattle.std.specs.Prelude.{◌≡◌};
ghost use Rattle.msb_import.specs.Resolved.{Resolves, resolved, importing_folder, path_or_fault};
ghost use Rattle.msb_import.specs.declared.resolving.ImportFault.TheVariants.{Memory};

use crate::LaidOut;
use file_store::Tree;
use msb_expand::folder_of;
use msb_paths::{NormalFault, normal_path};
use msb_values::{List, NoMemory, Text};
use std::alloc::Global;

/// Why an import brings in no file.
#[derive(Drop)]
pub enum ImportFault {
    /// No file is at this path.
    Missing(Text),
    /// The file at this path was laid out before; the import is ignored.
    Duplicate(Text),
    /// The chain of files would have more than 64, the root file included.
    ImportDepth,
    /// This text can't be made a normal path.
    Path(Text),
    Memory,
}

impl From<NoMemory> for ImportFault {
    ghost from_gives = { λ _ e. e ≡ Memory };

    fn from(_: NoMemory) -> Self {
        ImportFault::Memory
    }
}

/// How many files a chain of imports may have, the root file included.
const MOST_FILES: usize = 64;

/// The path of the file that an import brings in, from the text of its Project with values put in
/// and unescaped. The path is relative to the importing file, the last of the `chain` that leads to
/// it from the root file; `done` are the files that were laid out before, which are looked up in a
/// time that grows with the logarithm of their number. Of several faults the first in this order is
/// told: the path, the missing file, the duplicate, the depth. (Import element.)
pub fn resolve(
    alloc: Global,
    tree: &Tree,
    chain: &List<Text>,
    done: &LaidOut,
    text: &str,
) -> Result<Text, ImportFault>
    ensures { Resolves result (resolved tree.now.files chain.now done.now text.now) }
{
    let path = path_of(alloc, chain.as_slice(), text)?;
    if tree.find(path.as_str()).is_none() {
        return Err(ImportFault::Missing(path));
    }
    if done.has(&path) {
        return Err(ImportFault::Duplicate(path));
    }
    if chain.len() < MOST_FILES {
        Ok(path)
    } else {
        Err(ImportFault::ImportDepth)
    }
}

fn path_of(alloc: Global, chain: &[Text], text: &str) -> Result<Text, ImportFault>
    ensures { Resolves result (path_or_fault (importing_folder chain.now) text.now) }
{
    match normal_path(alloc, folder_in(chain), text) {
        Ok(path) => Ok(Text::of(alloc, path.as_str())?),
        Err(NormalFault::Memory) => Err(ImportFault::Memory),
        Err(_) => Err(ImportFault::Path(Text::of(alloc, text)?)),
    }
}

fn folder_in(chain: &[Text]) -> &str
    ensures { result.now ≡ importing_folder chain.now }
{
    match chain.last() {
        Some(file) => folder_of(file.as_str()),
        None => "",
    }
}
