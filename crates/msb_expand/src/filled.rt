ghost use Rattle.std.specs.Prelude.{Ok, map, option_map};
ghost use Rattle.msb_expand.specs.Answers.{Gives};
ghost use Rattle.msb_expand.specs.Scenes.{scene_of};
ghost use Rattle.msb_expand.specs.Tokens.{filled, filled_piece, filled_step, kept_text};

use crate::properties::property;
use crate::{ExpandFault, Lens};
use msb_expression::{Args, Part, Piece, Pieces, Step, Steps, Word};
use std::alloc::Global;

/// An item reference that stays text, in which each property has its value.
pub(crate) fn reference_text(
    alloc: Global,
    lens: &Lens<'_>,
    kind: &Word,
    steps: &Steps,
    separator: &Option<Pieces>,
) -> Result<Word, ExpandFault>
    ensures { Gives result (Ok (kept_text (scene_of lens.now) kind.now steps.now separator.now)) }
{
    let kind = Word::of(alloc, kind.as_str())?;
    let steps = fill_steps(alloc, lens, steps.as_slice())?;
    let separator = fill_separator(alloc, lens, separator)?;
    Ok(Part::Items(kind, steps, separator).text(alloc)?)
}

fn fill_separator(
    alloc: Global,
    lens: &Lens<'_>,
    separator: &Option<Pieces>,
) -> Result<Option<Pieces>, ExpandFault>
    ensures { Gives result (Ok (option_map (filled (scene_of lens.now)) separator.now)) }
{
    match separator {
        None => Ok(None),
        Some(pieces) => Ok(Some(fill_pieces(alloc, lens, pieces.as_slice())?)),
    }
}

fn fill_steps(alloc: Global, lens: &Lens<'_>, steps: &[Step]) -> Result<Steps, ExpandFault>
    ensures { Gives result (Ok (map (filled_step (scene_of lens.now)) steps.now)) }
{
    let mut filled = Steps::new(alloc);
    for step in steps {
        filled.push(fill_step(alloc, lens, step)?)?;
    }
    Ok(filled)
}

fn fill_step(alloc: Global, lens: &Lens<'_>, step: &Step) -> Result<Step, ExpandFault>
    ensures { Gives result (Ok (filled_step (scene_of lens.now) step.now)) }
{
    match step {
        Step::Transform(pieces) => Ok(Step::Transform(fill_pieces(
            alloc,
            lens,
            pieces.as_slice(),
        )?)),
        Step::Call(function, args) => {
            let function = Word::of(alloc, function.as_str())?;
            Ok(Step::Call(function, fill_args(alloc, lens, args.as_slice())?))
        }
    }
}

fn fill_args(alloc: Global, lens: &Lens<'_>, args: &[Pieces]) -> Result<Args, ExpandFault>
    ensures { Gives result (Ok (map (filled (scene_of lens.now)) args.now)) }
{
    let mut filled = Args::new(alloc);
    for arg in args {
        filled.push(fill_pieces(alloc, lens, arg.as_slice())?)?;
    }
    Ok(filled)
}

fn fill_pieces(alloc: Global, lens: &Lens<'_>, pieces: &[Piece]) -> Result<Pieces, ExpandFault>
    ensures { Gives result (Ok (filled (scene_of lens.now) pieces.now)) }
{
    let mut filled = Pieces::new(alloc);
    for piece in pieces {
        filled.push(fill_piece(alloc, lens, piece)?)?;
    }
    Ok(filled)
}

fn fill_piece(alloc: Global, lens: &Lens<'_>, piece: &Piece) -> Result<Piece, ExpandFault>
    ensures { Gives result (Ok (filled_piece (scene_of lens.now) piece.now)) }
{
    match piece {
        Piece::Plain(text) => Ok(Piece::Plain(Word::of(alloc, text.as_str())?)),
        Piece::Prop(name) => {
            let value = property(alloc, lens, name.as_str())?;
            Ok(Piece::Plain(Word::of(alloc, value.as_str())?))
        }
        Piece::Meta(name) => Ok(Piece::Meta(Word::of(alloc, name.as_str())?)),
    }
}
