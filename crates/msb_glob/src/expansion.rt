ghost use Rattle.std.specs.Prelude.{
  ◌≡◌,
  ◌++◌,
  true,
  false,
  nat_eq,
  map,
  filter,
  length,
  drop,
  IfOk,
  MatchOption,
  option_copied,
  IsPermutation,
  IsSorted,
};
ghost use Rattle.std.specs.List.{flat_map, starts_with};
ghost use Rattle.std.specs.Ordering.{nat_cmp};
ghost use Rattle.std.specs.Cmp.Lexicographic.{slice_cmp};
ghost use Rattle.msb_glob.specs.Expanded.{
  Expands,
  is_match,
  ident_of,
  folder_text,
  recursive_dir,
  match_of,
};
ghost use Rattle.msb_glob.specs.Match.{segment_token, segments_left};
ghost use Rattle.msb_glob.specs.Front.{front_of};
ghost use Rattle.msb_glob.specs.Tokens.{ahead_of, fits};
ghost use Rattle.msb_values.specs.Escapes.{escaped};

use crate::errors::OutOfMemory;
use crate::parts::{Part, are_gaps, first_segment, fits_left};
use crate::{HasPath, Pattern, SortedPaths};
use msb_paths::{NoRoom, Word};
use msb_values::{List, Text, escape};
use std::alloc::Global;

/// A path that a pattern stands for.
pub struct Match {
    /// The pattern's fixed part as written, with `/`, and then the rest of the path, escaped; or
    /// where the path doesn't lie below the folder that the fixed part leads to, `/` and the whole
    /// path, escaped.
    pub ident: Word,
    /// The folders that the first `**` stands for, as few as it can, each with `/`, escaped.
    pub recursive: Word,
}

// A drop that is written out is proved here alone.
impl Drop for Match {
    fn drop(self) {
        let Match {
            ident: _,
            recursive: _,
        } = self;
    }
}

/// The paths that a pattern stands for, in byte order.
///
/// It looks at the first bytes of every path, since these may stand in any order.
pub fn expand(alloc: Global, paths: &List<Text>, pattern: &Pattern) -> Result<List<Match>, NoRoom>
    ensures { IfOk result (Expands pattern.now paths.now) }
{
    let found = find_matches(alloc, paths.as_slice(), pattern)?;
    Ok(matches_of(alloc, &found, pattern)?)
}

/// The paths that a pattern stands for, of paths in byte order.
///
/// Those that begin as every match does are found by halves, and only they are matched: the time
/// grows with their number, and with the logarithm of the number of all paths.
pub fn expand_in<P: HasPath>(
    alloc: Global,
    paths: &SortedPaths<'_, P>,
    pattern: &Pattern,
) -> Result<List<Match>, NoRoom>
    ensures sorted { IfOk result (Expands pattern.now paths.now) }
    ensures kept { IfOk result (λ matches. matches
        ≡ map (match_of pattern.now) (filter (is_match pattern.now) paths.now)) }
{
    let front = front_of(alloc, pattern.parts.as_slice())?;
    let found = keep_matches(alloc, paths.beginning_with(front.as_str()), pattern)?;
    Ok(matches_of(alloc, &found, pattern)?)
}

fn keep_matches<'a, P: HasPath>(
    alloc: Global,
    entries: &'a [P],
    pattern: &Pattern,
) -> Result<Vec<&'a str>, OutOfMemory>
    ensures { IfOk result (λ found.
        map (λ path. path.now) found.items ≡ filter (is_match pattern.now)
        (map P.path entries.now)) }
{
    let mut found = Vec::new(alloc);
    for entry in entries {
        let path = entry.path();
        if pattern.matches(path) {
            found.push(path)?;
        }
    }
    Ok(found)
}

fn find_matches<'a>(
    alloc: Global,
    paths: &'a [Text],
    pattern: &Pattern,
) -> Result<Vec<&'a str>, OutOfMemory>
    ensures matching { IfOk result
        (λ found. IsPermutation (filter (is_match pattern.now) paths.now)
        (map (λ path. path.now) found.items)) }
    ensures in_order { IfOk result
        (λ found. IsSorted (slice_cmp nat_cmp) (map (λ path. path.now) found.items)) }
{
    let front = front_of(alloc, pattern.parts.as_slice())?;
    let mut found = Vec::new(alloc);
    for path in paths {
        if is_below(front.as_str(), pattern, path.as_str()) {
            found.push(path.as_str())?;
        }
    }
    found.sort()?;
    Ok(found)
}

/// Whether the pattern stands for a path. Only a path that begins as all of these do is looked at
/// further.
fn is_below(front: &str, pattern: &Pattern, path: &str) -> bool
    requires { front.now ≡ front_of pattern.now.parts }
    ensures { result ≡ is_match pattern.now path.now }
{
    if !path.starts_with(front) {
        return false;
    }
    pattern.matches(path)
}

/// What every path that the parts stand for begins with.
fn front_of(alloc: Global, parts: &[Part]) -> Result<Word, OutOfMemory>
    ensures { IfOk result (λ front. front ≡ front_of parts.now) }
{
    let mut front = Word::of(alloc, "")?;
    for (at, part) in parts.iter().enumerate() {
        let Part::Exact(text) = part else {
            return Ok(front);
        };
        front.push_str(text.as_str())?;
        if are_gaps(&parts[at + 1..]) {
            return Ok(front);
        }
        front.push_str("/")?;
    }
    Ok(front)
}

fn matches_of(alloc: Global, found: &[&str], pattern: &Pattern) -> Result<List<Match>, OutOfMemory>
    ensures { IfOk result (λ matches. matches
        ≡ map (match_of pattern.now) (map (λ path. path.now) found.now)) }
{
    let mut matches = List::new(alloc);
    for path in found {
        matches.push(match_of(alloc, pattern, path)?)?;
    }
    Ok(matches)
}

fn match_of(alloc: Global, pattern: &Pattern, path: &str) -> Result<Match, OutOfMemory>
    ensures { IfOk result (λ matching. matching ≡ match_of pattern.now path.now) }
{
    Ok(Match {
        ident: ident_of(alloc, pattern, path)?,
        recursive: recursive_dir(alloc, pattern.parts.as_slice(), path)?,
    })
}

fn ident_of(alloc: Global, pattern: &Pattern, path: &str) -> Result<Word, OutOfMemory>
    ensures { IfOk result (λ ident. ident ≡ ident_of pattern.now path.now) }
{
    match behind(path, pattern.folder.as_str()) {
        Some(rest) => with_escaped(alloc, pattern.fixed.as_str(), rest),
        None => with_escaped(alloc, "/", path),
    }
}

/// What a path has behind a text that it may begin with.
fn behind<'a>(path: &'a str, front: &str) -> Option<&'a str>
    ensures { MatchOption result (starts_with nat_eq path.now front.now ≡ false)
        (λ rest. (starts_with nat_eq path.now front.now ≡ true)
        × (rest.now ≡ drop (length front.now) path.now)) }
{
    path.strip_prefix(front)
}

fn with_escaped(alloc: Global, front: &str, rest: &str) -> Result<Word, OutOfMemory>
    ensures { IfOk result (λ ident. ident ≡ front.now ++ escaped rest.now) }
{
    let mut ident = Word::of(alloc, front)?;
    let rest = escape(alloc, rest)?;
    ident.push_str(rest.as_str())?;
    Ok(ident)
}

/// The folders that the first `**` stands for.
fn recursive_dir(alloc: Global, parts: &[Part], path: &str) -> Result<Word, OutOfMemory>
    ensures { IfOk result (λ folders. folders ≡ recursive_dir parts.now path.now) }
{
    let mut left = Some(path);
    for (at, part) in parts.iter().enumerate() {
        if part.is_gap() {
            return folders_ahead(alloc, &parts[at + 1..], left);
        }
        match first_segment(left) {
            Some((_, behind)) => left = behind,
            None => return Ok(Word::of(alloc, "")?),
        }
    }
    Ok(Word::of(alloc, "")?)
}

/// The folders ahead of the first place from which on the parts fit.
fn folders_ahead(alloc: Global, parts: &[Part], place: Option<&str>) -> Result<Word, OutOfMemory>
    ensures { IfOk result (λ folders. folders
        ≡ flat_map folder_text
        (ahead_of (fits (map segment_token parts.now))
        (segments_left (option_copied place.entry)))) }
{
    let mut folders = Word::of(alloc, "")?;
    let mut left = place;
    while let Some((folder, behind)) = first_segment(left) {
        if fits_left(parts, left) {
            return Ok(folders);
        }
        push_folder(alloc, &mut folders, folder)?;
        left = behind;
    }
    Ok(folders)
}

fn push_folder(alloc: Global, folders: &mut Word, folder: &str) -> Result<(), OutOfMemory>
    ensures { IfOk result (λ _. folders.new ≡ folders.old ++ folder_text folder.now) }
{
    let name = escape(alloc, folder)?;
    folders.push_str(name.as_str())?;
    folders.push_str("/")?;
    Ok(())
}
