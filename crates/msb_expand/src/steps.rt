ghost use Rattle.std.specs.Prelude.{◌≡◌, [], IfOk, map};
ghost use Rattle.msb_expand.specs.Answers.{Gives, GivesAs};
ghost use Rattle.msb_expand.specs.Limits.{grown, grown_by};
ghost use Rattle.msb_laws.specs.Results.{all_ok};
ghost use Rattle.msb_expand.specs.Scenes.{scene_of};
ghost use Rattle.msb_expand.specs.Functions.{
  piece_value,
  transformed,
  stepped,
  after_steps,
  quoted_value,
};
ghost use Rattle.msb_expand.specs.Seen.{seen_item};

use crate::functions::call;
use crate::kept::keep;
use crate::limits::grow;
use crate::properties::{CowText, property};
use crate::references::quoted_value;
use crate::seen::Seen;
use crate::{ExpandFault, Lens};
use msb_expression::{Piece, Pieces, Step};
use msb_values::{NoMemory, Text};
use std::alloc::Global;

/// What is left of the items after one step after the other.
pub(crate) fn after_steps<'a>(
    alloc: Global,
    lens: &Lens<'a>,
    steps: &[Step],
    items: Vec<Seen<'a>>,
) -> Result<Vec<Seen<'a>>, ExpandFault>
    ensures { GivesAs (λ seen. map seen_item seen.items) result
        (after_steps (scene_of lens.now) steps.now (map seen_item items.entry.items)) }
{
    let mut items = items;
    for step in steps {
        items = take_step(alloc, lens, step, items)?;
    }
    Ok(items)
}

fn take_step<'a>(
    alloc: Global,
    lens: &Lens<'a>,
    step: &Step,
    items: Vec<Seen<'a>>,
) -> Result<Vec<Seen<'a>>, ExpandFault>
    ensures { GivesAs (λ seen. map seen_item seen.items) result
        (stepped (scene_of lens.now) step.now (map seen_item items.entry.items)) }
{
    match step {
        Step::Transform(pieces) => transform(alloc, lens, pieces.as_slice(), items),
        Step::Call(name, args) => {
            let args = quoted_values(alloc, lens, args.as_slice())?;
            call(alloc, lens.project, name.as_str(), &args, items)
        }
    }
}

fn quoted_values(alloc: Global, lens: &Lens<'_>, args: &[Pieces]) -> Result<Vec<Text>, NoMemory>
    ensures { IfOk result (λ texts. texts.items ≡ map (quoted_value (scene_of lens.now)) args.now) }
{
    let mut texts = Vec::new(alloc);
    for arg in args {
        texts.push(quoted_value(alloc, lens, arg)?)?;
    }
    Ok(texts)
}

/// Gives each item the text of the transform as its identity. (MSBuild transforms.)
fn transform<'a>(
    alloc: Global,
    lens: &Lens<'a>,
    pieces: &[Piece],
    items: Vec<Seen<'a>>,
) -> Result<Vec<Seen<'a>>, ExpandFault>
    ensures { GivesAs (λ seen. map seen_item seen.items) result
        (all_ok (transformed (scene_of lens.now) pieces.now) (map seen_item items.entry.items)) }
{
    let mut transformed = Vec::new(alloc);
    for item in items {
        let item = transform_item(alloc, lens, pieces, item)?;
        keep(&mut transformed, item)?;
    }
    Ok(transformed)
}

fn transform_item<'a>(
    alloc: Global,
    lens: &Lens<'a>,
    pieces: &[Piece],
    item: Seen<'a>,
) -> Result<Seen<'a>, ExpandFault>
    ensures { GivesAs seen_item result
        (transformed (scene_of lens.now) pieces.now (seen_item item.entry)) }
{
    let ident = transform_text(alloc, lens, pieces, &item)?;
    Ok(Seen {
        ident: CowText::Owned(ident),
        recursive: item.recursive,
        meta: item.meta,
        defaults: item.defaults,
    })
}

fn transform_text(
    alloc: Global,
    lens: &Lens<'_>,
    pieces: &[Piece],
    item: &Seen<'_>,
) -> Result<Text, ExpandFault>
    ensures { Gives result
        (grown_by (piece_value (scene_of lens.now) (seen_item item.now)) [] pieces.now) }
{
    let mut text = Text::of(alloc, "")?;
    for piece in pieces {
        push_value(alloc, lens, item, &mut text, piece)?;
    }
    Ok(text)
}

fn push_value(
    alloc: Global,
    lens: &Lens<'_>,
    item: &Seen<'_>,
    text: &mut Text,
    piece: &Piece,
) -> Result<(), ExpandFault>
    ensures { GivesAs (λ _. text.new) result
        (grown text.old (piece_value (scene_of lens.now) (seen_item item.now) piece.now)) }
{
    match piece {
        Piece::Plain(plain) => grow(text, plain.as_str()),
        Piece::Prop(name) => {
            let value = property(alloc, lens, name.as_str())?;
            grow(text, value.as_str())
        }
        Piece::Meta(name) => {
            let value = item.named_metadata(alloc, lens.project, name.as_str())?;
            grow(text, value.as_str())
        }
    }
}
