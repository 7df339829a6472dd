ghost use Rattle.std.specs.Prelude.{
  ◌≡◌,
  ◌-◌,
  ◌<◌,
  ◌≤◌,
  true,
  false,
  [],
  ◌++◌,
  IfOk,
  OnOk,
  length,
  take,
  drop,
};
ghost use Rattle.std.specs.Str.{IsCharBoundary};
ghost use Rattle.msb_expression.specs.Answers.{Leads};
ghost use Rattle.msb_expression.specs.Grammar.{
  is_blank,
  begins_blank,
  without_front,
  without_end,
  cut_front,
  cut_end,
  cut_piece,
  plain_pieces,
  trimmed_pieces,
};
ghost use Rattle.msb_expression.specs.Machine.{
  Arguments,
  run,
  in_text,
  inner,
  in_loose,
  left,
  unmarked,
  call_arg_ended,
  with_arg,
  start_of,
};
ghost use Rattle.msb_expression.specs.declared.starts.Inside.TheVariants.{Loose};
ghost use Rattle.msb_expression.specs.declared.starts.Start.TheVariants.{Stop};

use crate::pieces::piece;
use crate::starts::{Inside, Start, start_at};
use crate::{ExprFault, NoRoom, Piece, Pieces, Word};
use std::alloc::Global;

/// The argument without quotes at `at`, without the white space around it, and where it ends.
pub(crate) fn loose(alloc: Global, text: &str, at: usize) -> Result<(Pieces, usize), ExprFault>
    requires within { at ≤ length text.now }
    requires cut { IsCharBoundary text.now at }
    ensures leads { (a : Arguments)
        → Leads text.now result
        (run (drop at text.now) (in_text (inner (in_loose a) []) [] unmarked))
        (λ pieces rest. run rest (call_arg_ended (with_arg a pieces))) }
    ensures after { IfOk result (λ found. at ≤ found.1) }
    ensures moves { (start_of Loose (drop at text.now) ≡ Stop → ⊥)
        → IfOk result (λ found. at < found.1) }
    ensures stops { IfOk result (λ found. start_of Loose (drop found.1 text.now) ≡ Stop) }
    ensures within { IfOk result (λ found. found.1 ≤ length text.now) }
{
    let (pieces, end) = loose_pieces(alloc, text, at)?;
    Ok((trim_pieces(alloc, pieces.as_slice())?, end))
}

/// The pieces of the argument without quotes at `at`, and where it ends.
fn loose_pieces(alloc: Global, text: &str, at: usize) -> Result<(Pieces, usize), ExprFault>
    requires within { at ≤ length text.now }
    requires cut { IsCharBoundary text.now at }
    ensures leads { (a : Arguments)
        → Leads text.now result
        (run (drop at text.now) (in_text (inner (in_loose a) []) [] unmarked))
        (λ pieces rest. run rest (left (in_loose a) pieces)) }
    ensures after { IfOk result (λ found. at ≤ found.1) }
    ensures moves { (start_of Loose (drop at text.now) ≡ Stop → ⊥)
        → IfOk result (λ found. at < found.1) }
    ensures stops { IfOk result (λ found. start_of Loose (drop found.1 text.now) ≡ Stop) }
    ensures within { IfOk result (λ found. found.1 ≤ length text.now) }
{
    let mut pieces = Pieces::new(alloc);
    let mut next = at;
    loop {
        match start_at(text, next, Inside::Loose) {
            Start::Stop => return Ok((pieces, next)),
            _ => {
                let (piece, end) = piece(alloc, text, next, Inside::Loose)?;
                pieces.push(piece)?;
                next = end;
            }
        }
    }
}

/// The pieces without the white space around them.
fn trim_pieces(alloc: Global, pieces: &[Piece]) -> Result<Pieces, NoRoom>
    ensures { IfOk result (λ kept. kept ≡ trimmed_pieces pieces.now) }
{
    let mut kept = Pieces::new(alloc);
    for at in 0..pieces.len() {
        push_cut(
            alloc,
            &mut kept,
            &pieces[at],
            at == 0,
            at + 1 == pieces.len(),
        )?;
    }
    Ok(kept)
}

/// Adds a piece without the white space at its front, or at its end.
fn push_cut(
    alloc: Global,
    kept: &mut Pieces,
    piece: &Piece,
    front: bool,
    end: bool,
) -> Result<(), NoRoom>
    ensures { OnOk result (kept.new ≡ kept.old ++ cut_piece front end piece.now) }
{
    match piece {
        Piece::Plain(plain) => push_plain(alloc, kept, cut_plain(plain.as_str(), front, end)),
        Piece::Prop(name) => kept.push(Piece::Prop(Word::of(alloc, name.as_str())?)),
        Piece::Meta(name) => kept.push(Piece::Meta(Word::of(alloc, name.as_str())?)),
    }
}

/// Adds plain text, unless it is empty.
#[tactic(auto, using(crate::proofs::Blanks::plain_none, crate::proofs::Blanks::plain_some))]
fn push_plain(alloc: Global, kept: &mut Pieces, plain: &str) -> Result<(), NoRoom>
    ensures { OnOk result (kept.new ≡ kept.old ++ plain_pieces plain.now) }
{
    if plain.is_empty() {
        return Ok(());
    }
    kept.push(Piece::Plain(Word::of(alloc, plain)?))
}

/// The text without the white space at its front, or at its end.
fn cut_plain(text: &str, front: bool, end: bool) -> &str
    ensures { result.now ≡ cut_end end (cut_front front text.now) }
{
    cut_end(cut_front(text, front), end)
}

fn cut_front(text: &str, front: bool) -> &str
    ensures { result.now ≡ cut_front front text.now }
{
    if front { without_front(text) } else { text }
}

fn cut_end(text: &str, end: bool) -> &str
    ensures { result.now ≡ cut_end end text.now }
{
    if end { without_end(text) } else { text }
}

/// Whether this is a space, a tab, or of the end of a line.
fn is_blank(byte: u8) -> bool
    ensures { result ≡ is_blank byte }
{
    matches!(byte, b' ' | b'\t' | b'\r' | b'\n')
}

/// Whether white space stands at `at`.
fn blank_at(text: &str, at: usize) -> bool
    ensures { result ≡ begins_blank (drop at text.now) }
{
    let bytes = text.as_bytes();
    if at < bytes.len() {
        is_blank(bytes[at])
    } else {
        false
    }
}

/// Whether white space stands before `end`.
fn blank_before(text: &str, end: usize) -> bool
    ensures some { result ≡ true → (0 < end) × (begins_blank (drop (end - 1) text.now) ≡ true) }
    ensures none { result ≡ false → 0 < end → begins_blank (drop (end - 1) text.now) ≡ false }
{
    if end == 0 {
        return false;
    }
    blank_at(text, end - 1)
}

fn without_front(text: &str) -> &str
    ensures { result.now ≡ without_front text.now }
{
    let mut start = 0;
    while blank_at(text, start) {
        start += 1;
    }
    text_from(text, start)
}

fn text_from(text: &str, start: usize) -> &str
    requires { IsCharBoundary text.now start }
    ensures { result.now ≡ drop start text.now }
{
    &text[start..]
}

fn without_end(text: &str) -> &str
    ensures { result.now ≡ without_end text.now }
{
    let mut end = text.len();
    while blank_before(text, end) {
        end -= 1;
    }
    text_to(text, end)
}

fn text_to(text: &str, end: usize) -> &str
    requires { IsCharBoundary text.now end }
    ensures { result.now ≡ take end text.now }
{
    &text[..end]
}
