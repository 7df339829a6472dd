ghost use Rattle.std.specs.Prelude.{◌≡◌, [], ◌∷◌, ◌++◌, IfOk, OnOk, OnErr};
ghost use Rattle.std.specs.List.{list_any};
ghost use Rattle.std.specs.Str.{bytes_eq};

use msb_values::{Copied, List, NoMemory, Text};
use std::alloc::Global;
use std::collections::BTreeSet;
use std::marker::Model;

/// The files that were laid out, in that order, which are looked up by their paths. Contracts see
/// the list of the paths.
pub struct LaidOut {
    files: Vec<Text>,
    known: BTreeSet<Text>,
}

// A drop that is written out is proved here alone.
impl Drop for LaidOut {
    fn drop(self) {
        let LaidOut { files: _, known: _ } = self;
    }
}

impl Model for LaidOut {
    ghost use Rattle.std.specs.Prelude.{ℕ, List, ◌≡◌};
    ghost use Rattle.std.specs.List.{list_any};
    ghost use Rattle.std.specs.Str.{bytes_eq};
    ghost use Rattle.std.specs.Ordering.{nat_cmp};
    ghost use Rattle.std.specs.Cmp.Lexicographic.{slice_cmp};
    ghost use Rattle.std.specs.BTreeSet.{contains};

    ghost Value = { List (List ℕ) };

    ghost view = { λ l. l.files.items };

    /// The set has just the paths of the list.
    ghost invariant = { λ l. (path : List ℕ) → contains (slice_cmp nat_cmp) l.known path
        ≡ list_any (λ other. bytes_eq other path) l.files.items };
}

impl LaidOut {
    pub fn new(alloc: Global) -> LaidOut
        ensures { result ≡ [] }
    {
        LaidOut {
            files: Vec::new(alloc),
            known: BTreeSet::new(alloc),
        }
    }

    /// The paths of the files, in the order in which they were laid out.
    pub fn as_slice(&self) -> &[Text]
        ensures { result.now ≡ self.now }
    {
        &self.files
    }

    /// The paths as a list.
    pub fn into_list(self) -> List<Text>
        ensures { result ≡ self }
    {
        let LaidOut { files, known: _ } = self;
        List::from(files)
    }

    /// Whether a file at this path was laid out.
    pub fn has(&self, path: &Text) -> bool
        ensures { result ≡ list_any (λ other. bytes_eq other path.now) self.now }
    {
        self.known.contains(path)
    }

    /// Adds a file at the end. Want of memory leaves the files as they were.
    pub fn push(&mut self, path: &Text) -> Result<(), NoMemory>
        ensures ok { OnOk result (self.new ≡ self.old ++ path.now ∷ []) }
        ensures err { OnErr result (self.new ≡ self.old) }
    {
        let file = path.copy()?;
        let known = path.copy()?;
        self.files.push(file)?;
        match self.known.insert(known) {
            Ok(_) => Ok(()),
            Err(_) => {
                self.files.pop();
                Err(NoMemory)
            }
        }
    }
}
