ghost use Rattle.std.specs.Prelude.{◌≡◌, [], IfOk, OnOk};
ghost use Rattle.std.specs.List.{list_any};
ghost use Rattle.msb_glob.specs.FoldedNames.{
  fits_any,
  folded_ident,
  has_ident,
  is_named_by,
  path_of,
  seen_names,
  with_ident,
};
ghost use Rattle.msb_glob.specs.Match.{fits_path};

use crate::{Pattern, with_slashes};
use msb_paths::{NormalFault, Word, normal_path};
use msb_values::{Folded, List, NoMemory};
use std::alloc::Global;
use std::collections::BTreeSet;

/// What the entries of an Exclude, a Remove or an Update name, or those of the Exclude of a
/// CreateItem. (MSBuild items, wildcards to specify items.)
pub struct ItemNames {
    /// The identity that each entry is, without escapes, with `/` for each `\` and folded.
    idents: BTreeSet<Folded>,
    /// The patterns among the entries.
    patterns: List<Pattern>,
}

// A drop that is written out is proved here alone.
impl Drop for ItemNames {
    fn drop(self) {
        let ItemNames {
            idents: _,
            patterns: _,
        } = self;
    }
}

impl ItemNames {
    /// What these patterns match, and no identity yet.
    pub fn of(alloc: Global, patterns: List<Pattern>) -> ItemNames
        ensures { seen_names result ≡ ([], patterns) }
    {
        ItemNames {
            idents: BTreeSet::new(alloc),
            patterns,
        }
    }

    /// Adds an identity, without escapes.
    pub fn insert(&mut self, alloc: Global, ident: &str) -> Result<(), NoMemory>
        ensures { OnOk result (seen_names self.new ≡ with_ident (seen_names self.old) ident.now) }
    {
        let folded = folded_ident(alloc, ident)?;
        match self.idents.insert(folded) {
            Ok(_) => Ok(()),
            Err(_) => Err(NoMemory),
        }
    }

    /// Whether an item of this identity, without escapes, is named: an entry is its identity,
    /// without case and with `/` for each `\`, or a pattern matches its path from this folder.
    pub fn names(&self, alloc: Global, folder: &str, ident: &str) -> Result<bool, NoMemory>
        ensures { IfOk result (λ is. is ≡ is_named_by folder.now (seen_names self.now) ident.now) }
    {
        if self.has(alloc, ident)? {
            return Ok(true);
        }
        matches_any(alloc, folder, self.patterns.as_slice(), ident)
    }

    fn has(&self, alloc: Global, ident: &str) -> Result<bool, NoMemory>
        ensures { IfOk result (λ has. has ≡ has_ident self.now.idents.keys ident.now) }
    {
        let folded = folded_ident(alloc, ident)?;
        Ok(self.idents.contains(&folded))
    }
}

/// An identity with `/` for each `\`, folded.
fn folded_ident(alloc: Global, ident: &str) -> Result<Folded, NoMemory>
    ensures { IfOk result (λ folded. folded ≡ folded_ident ident.now) }
{
    let ident = with_slashes(alloc, ident)?;
    Folded::of(alloc, ident.as_str())
}

/// Whether any of these patterns matches an identity; none matches one that can't be made normal.
fn matches_any(
    alloc: Global,
    folder: &str,
    patterns: &[Pattern],
    ident: &str,
) -> Result<bool, NoMemory>
    ensures { IfOk result (λ is. is ≡ fits_any (path_of folder.now ident.now) patterns.now) }
{
    if patterns.is_empty() {
        return Ok(false);
    }
    match path_of(alloc, folder, ident)? {
        Some(path) => Ok(matches_path(patterns, path.as_str())),
        None => Ok(false),
    }
}

fn matches_path(patterns: &[Pattern], path: &str) -> bool
    ensures { result ≡ list_any (λ pattern. fits_path pattern.parts path.now) patterns.now }
{
    patterns.iter().any(|pattern| pattern.matches(path))
}

/// The path of an identity from the root of the store, or nothing where it can't be made normal.
fn path_of(alloc: Global, folder: &str, ident: &str) -> Result<Option<Word>, NoMemory>
    ensures { IfOk result (λ path. path ≡ path_of folder.now ident.now) }
{
    match normal_path(alloc, folder, ident) {
        Ok(path) => Ok(Some(path)),
        Err(NormalFault::AboveRoot) => Ok(None),
        Err(NormalFault::Empty) => Ok(None),
        Err(NormalFault::ControlCharacter) => Ok(None),
        Err(NormalFault::Memory) => Err(NoMemory),
    }
}
