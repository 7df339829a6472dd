ghost use Rattle.std.specs.Prelude.{◌≡◌, ◌++◌, false, map, IfOk};
ghost use Rattle.std.specs.List.{slice_split, list_any};
ghost use Rattle.std.specs.Str.{chars};
ghost use Rattle.msb_paths.specs.Segments.{is_backslash, segments};
ghost use Rattle.msb_glob.specs.Parsed.{
  around_questions,
  literal,
  cleared,
  doubles_star,
  has_stars_inside,
  characters,
  pieces_of,
  part_of,
  closed,
  parts_of,
};
ghost use Rattle.msb_glob.specs.declared.pieces.Piece.TheVariants.{AnyCharacter, Character};

use crate::entries::is_pattern;
use crate::errors::OutOfMemory;
use crate::parts::{Part, first_segment};
use crate::pieces::Piece;
use crate::splits::split_first;
use msb_paths::Word;
use msb_values::{List, Text, escape, unescape};
use std::alloc::Global;

/// A text with its wildcards, and each other character as itself or as the escape of a special one.
pub(crate) fn normalize_escapes(alloc: Global, text: &str) -> Result<Word, OutOfMemory>
    ensures { IfOk result (λ whole. whole ≡ cleared text.now) }
{
    let mut whole = Word::of(alloc, "")?;
    let mut rest = text;
    while let Some((part, behind)) = split_first(rest, '*') {
        push_around_questions(alloc, &mut whole, part)?;
        whole.push_str("*")?;
        rest = behind;
    }
    push_around_questions(alloc, &mut whole, rest)?;
    Ok(whole)
}

fn push_around_questions(alloc: Global, whole: &mut Word, text: &str) -> Result<(), OutOfMemory>
    ensures { IfOk result (λ _. whole.new ≡ whole.old ++ around_questions 63 literal text.now) }
{
    let mut rest = text;
    while let Some((part, behind)) = split_first(rest, '?') {
        push_literal(alloc, whole, part)?;
        whole.push_str("?")?;
        rest = behind;
    }
    push_literal(alloc, whole, rest)
}

fn push_literal(alloc: Global, whole: &mut Word, text: &str) -> Result<(), OutOfMemory>
    ensures { IfOk result (λ _. whole.new ≡ whole.old ++ literal text.now) }
{
    let plain = literal(alloc, text)?;
    whole.push_str(plain.as_str())?;
    Ok(())
}

/// The text with its escapes undone, and what is special escaped anew.
fn literal(alloc: Global, text: &str) -> Result<Text, OutOfMemory>
    ensures { IfOk result (λ t. t ≡ literal text.now) }
{
    let plain = unescape(alloc, text)?;
    Ok(escape(alloc, plain.as_str())?)
}

/// Whether `**` stands beside other characters in a segment of the text as it is written.
pub(crate) fn has_stars_inside(text: &str) -> bool
    ensures { result ≡ list_any has_stars_inside (segments text.now) }
{
    text.split('/').any(|part| has_stars_inside_part(part))
}

fn has_stars_inside_part(part: &str) -> bool
    ensures { result ≡ list_any has_stars_inside (slice_split is_backslash part.now) }
{
    part.split('\\')
        .any(|segment| has_stars_inside_segment(segment))
}

fn has_stars_inside_segment(segment: &str) -> bool
    ensures { result ≡ has_stars_inside segment.now }
{
    doubles_star(segment) && segment != "**"
}

fn doubles_star(segment: &str) -> bool
    ensures { result ≡ doubles_star false segment.now }
{
    let mut before = false;
    for byte in segment.as_bytes() {
        let is_star = *byte == b'*';
        if before && is_star {
            return true;
        }
        before = is_star;
    }
    false
}

/// The parts of a pattern that is made normal.
pub(crate) fn parts_of(alloc: Global, path: &str) -> Result<List<Part>, OutOfMemory>
    ensures { IfOk result (λ parts. parts ≡ parts_of path.now) }
{
    let mut parts = List::new(alloc);
    let mut left = Some(path);
    while let Some((segment, behind)) = first_segment(left) {
        parts.push(part_of(alloc, segment)?)?;
        left = behind;
    }
    close(alloc, parts)
}

/// As a last segment, `**` stands for folders and one more segment.
fn close(alloc: Global, mut parts: List<Part>) -> Result<List<Part>, OutOfMemory>
    ensures { IfOk result (λ all. all ≡ closed parts) }
{
    let is_open = match parts.as_slice().last() {
        Some(part) => part.is_gap(),
        None => false,
    };
    if is_open {
        let mut pieces = List::new(alloc);
        pieces.push(Piece::AnyCharacters)?;
        parts.push(Part::Segment(pieces))?;
    }
    Ok(parts)
}

fn part_of(alloc: Global, segment: &str) -> Result<Part, OutOfMemory>
    ensures { IfOk result (λ part. part ≡ part_of segment.now) }
{
    if segment == "**" {
        return Ok(Part::AnyFolders);
    }
    if is_pattern(segment) {
        return Ok(Part::Segment(pieces_of(alloc, segment)?));
    }
    Ok(Part::Exact(unescape(alloc, segment)?))
}

fn pieces_of(alloc: Global, segment: &str) -> Result<List<Piece>, OutOfMemory>
    ensures { IfOk result (λ pieces. pieces ≡ pieces_of segment.now) }
{
    let mut pieces = List::new(alloc);
    let mut rest = segment;
    while let Some((part, behind)) = split_first(rest, '*') {
        push_pieces(alloc, &mut pieces, part)?;
        pieces.push(Piece::AnyCharacters)?;
        rest = behind;
    }
    push_pieces(alloc, &mut pieces, rest)?;
    Ok(pieces)
}

fn push_pieces(alloc: Global, pieces: &mut List<Piece>, text: &str) -> Result<(), OutOfMemory>
    ensures { IfOk result
        (λ _. pieces.new ≡ pieces.old ++ around_questions AnyCharacter characters text.now) }
{
    let mut rest = text;
    while let Some((part, behind)) = split_first(rest, '?') {
        push_characters(alloc, pieces, part)?;
        pieces.push(Piece::AnyCharacter)?;
        rest = behind;
    }
    push_characters(alloc, pieces, rest)
}

fn push_characters(alloc: Global, pieces: &mut List<Piece>, text: &str) -> Result<(), OutOfMemory>
    ensures { IfOk result (λ _. pieces.new ≡ pieces.old ++ characters text.now) }
{
    let plain = unescape(alloc, text)?;
    push_each(pieces, plain.as_str())
}

fn push_each(pieces: &mut List<Piece>, plain: &str) -> Result<(), OutOfMemory>
    ensures { IfOk result (λ _. pieces.new ≡ pieces.old ++ map Character (chars plain.now)) }
{
    for character in plain.chars() {
        pieces.push(Piece::Character(character))?;
    }
    Ok(())
}
