ghost use Rattle.std.specs.Prelude.{◌≡◌, true, false, Err, [], ◌++◌, map, Some, IfOk};
ghost use Rattle.std.specs.List.{slice_split};
ghost use Rattle.msb_paths.specs.Answer.{Gives, ComesTo};
ghost use Rattle.msb_paths.specs.Normal.{
  is_normal,
  is_clean,
  is_rooted,
  start_of,
  entered,
  walked,
  path_of,
  normalized,
};
ghost use Rattle.msb_paths.specs.Refused.{normal_path, GivesNormal};
ghost use Rattle.msb_paths.specs.Segments.{is_backslash, segments};
ghost use Rattle.msb_paths.specs.declared.errors.NormalFault.TheVariants.{ControlCharacter};

use crate::segments::{is_here, is_normal_segment, is_parent, is_separator};
use crate::{NormalFault, PathFault, Word};
use std::alloc::Global;

/// Whether a path is normal: one or more normal segments joined by `/`.
pub fn is_normal(path: &str) -> bool
    ensures { result ≡ is_normal path.now }
{
    path.split('/').all(|segment| is_normal_segment(segment))
}

/// Makes a text a normal path on a base folder, which is normal, or empty for the root.
///
/// `\` is read as `/`. A text that begins with `/` starts at the root, any other at the base. Empty
/// segments and `.` are dropped, and `..` takes the last segment away. The path is normal where
/// neither the base nor the text has a control character; [`normal_path`] refuses what isn't.
pub fn normalize(alloc: Global, base: &str, text: &str) -> Result<Word, PathFault>
    ensures exact { Gives result (normalized base.now text.now) }
    ensures normal { IfOk result
        (λ path. is_clean base.now ≡ true → is_clean text.now ≡ true → is_normal path ≡ true) }
{
    let names = names_of(alloc, start_of(base, text), text)?;
    path_of(alloc, &names)
}

/// The normal path of a text on a base folder, made as [`normalize`] makes it.
///
/// A path that has a character below U+0020 is refused; such a character in a segment that `..`
/// takes away is not.
pub fn normal_path(alloc: Global, base: &str, text: &str) -> Result<Word, NormalFault>
    ensures exact { GivesNormal result (normal_path base.now text.now) }
    ensures normal { IfOk result (λ path. is_normal path ≡ true) }
    ensures control { result ≡ Err ControlCharacter → is_clean base.now ≡ true
        → is_clean text.now ≡ false }
{
    let path = normalize(alloc, base, text)?;
    if is_normal(path.as_str()) {
        Ok(path)
    } else {
        Err(NormalFault::ControlCharacter)
    }
}

fn is_rooted(text: &str) -> bool
    ensures { result ≡ is_rooted text.now }
{
    match text.as_bytes().first() {
        Some(byte) => is_separator(*byte),
        None => false,
    }
}

fn start_of<'a>(base: &'a str, text: &str) -> &'a str
    ensures { result.now ≡ start_of base.now text.now }
{
    if is_rooted(text) { "" } else { base }
}

fn names_of<'a>(alloc: Global, start: &'a str, text: &'a str) -> Result<Vec<&'a str>, PathFault>
    ensures { ComesTo (λ names. map (λ name. name.now) names.items) result
        (walked (segments start.now ++ segments text.now) []) }
{
    let mut names = Vec::new(alloc);
    walk(&mut names, start)?;
    walk(&mut names, text)?;
    Ok(names)
}

/// Goes along the segments of a text.
fn walk<'a>(names: &mut Vec<&'a str>, text: &'a str) -> Result<(), PathFault>
    ensures { ComesTo (λ _. map (λ name. name.now) names.new.items) result
        (walked (segments text.now) (map (λ name. name.now) names.old.items)) }
{
    for part in text.split('/') {
        walk_part(names, part)?;
    }
    Ok(())
}

/// Goes along the segments of a text without `/`.
fn walk_part<'a>(names: &mut Vec<&'a str>, part: &'a str) -> Result<(), PathFault>
    ensures { ComesTo (λ _. map (λ name. name.now) names.new.items) result
        (walked (slice_split is_backslash part.now) (map (λ name. name.now) names.old.items)) }
{
    for segment in part.split('\\') {
        enter(names, segment)?;
    }
    Ok(())
}

fn enter<'a>(names: &mut Vec<&'a str>, segment: &'a str) -> Result<(), PathFault>
    ensures { ComesTo (λ _. map (λ name. name.now) names.new.items) result
        (entered (map (λ name. name.now) names.old.items) segment.now) }
{
    if is_here(segment) {
        return Ok(());
    }
    if is_parent(segment) {
        return match names.pop() {
            Some(_) => Ok(()),
            None => Err(PathFault::AboveRoot),
        };
    }
    names.push(segment)?;
    Ok(())
}

fn path_of(alloc: Global, names: &[&str]) -> Result<Word, PathFault>
    ensures { Gives result (path_of (Some (map (λ name. name.now) names.now))) }
{
    let Some((first, rest)) = names.split_first() else {
        return Err(PathFault::Empty);
    };
    let mut path = Word::of(alloc, first)?;
    for name in rest {
        path.push_str("/")?;
        path.push_str(name)?;
    }
    Ok(path)
}
