ghost use Rattle.msb_expand.specs.Answers.{GivesAs};
ghost use Rattle.msb_values.specs.Keys.{key_of};
ghost use Rattle.msb_expand.specs.Scenes.{scene_of, pairs_or_none, with_defaults};
ghost use Rattle.msb_expand.specs.Functions.{quoted_piece, quoted_value};
ghost use Rattle.msb_expand.specs.Values.{named_items, referred_items};
ghost use Rattle.msb_expand.specs.Seen.{seen_item};
ghost use Rattle.std.specs.Prelude.{◌≡◌, ◌++◌, IfOk, OnOk, map, option_copied};

use crate::properties::property;
use crate::seen::Seen;
use crate::steps::after_steps;
use crate::{ExpandFault, Lens};
use msb_expression::{Piece, Pieces, Steps};
use msb_values::{Item, Name, NoMemory, Pairs, Text};
use std::alloc::Global;

/// The items of a reference, after its steps. (MSBuild transforms; Item functions.)
pub(crate) fn referred_items<'a>(
    alloc: Global,
    lens: &Lens<'a>,
    kind: &str,
    steps: &Steps,
) -> Result<Vec<Seen<'a>>, ExpandFault>
    ensures { GivesAs (λ seen. map seen_item seen.items) result
        (referred_items (scene_of lens.now) kind.now steps.now) }
{
    let items = named_items(alloc, lens, kind)?;
    after_steps(alloc, lens, steps.as_slice(), items)
}

/// The items of a type, each with the defaults; a text that is no name names none.
fn named_items<'a>(alloc: Global, lens: &Lens<'a>, kind: &str) -> Result<Vec<Seen<'a>>, NoMemory>
    ensures { IfOk result (λ seen. map seen_item seen.items
        ≡ named_items (scene_of lens.now) (key_of kind.now)) }
{
    match Name::look_up(alloc, kind)? {
        Some(kind) => see_all(alloc, lens.items(&kind), lens.scope.defaults.get(&kind)),
        None => Ok(Vec::new(alloc)),
    }
}

fn see_all<'a>(
    alloc: Global,
    items: &'a [Item],
    defaults: Option<&'a Pairs>,
) -> Result<Vec<Seen<'a>>, NoMemory>
    ensures { IfOk result (λ seen. map seen_item seen.items
        ≡ map (with_defaults (pairs_or_none (option_copied defaults.entry))) items.now) }
{
    let mut seen = Vec::new(alloc);
    for item in items {
        seen.push(Seen::of(item, defaults))?;
    }
    Ok(seen)
}

/// The text of an argument or a separator, where properties alone have values.
pub(crate) fn quoted_value(
    alloc: Global,
    lens: &Lens<'_>,
    pieces: &Pieces,
) -> Result<Text, NoMemory>
    ensures { IfOk result (λ text. text ≡ quoted_value (scene_of lens.now) pieces.now) }
{
    let mut text = Text::of(alloc, "")?;
    push_quoted(alloc, lens, &mut text, pieces.as_slice())?;
    Ok(text)
}

fn push_quoted(
    alloc: Global,
    lens: &Lens<'_>,
    text: &mut Text,
    pieces: &[Piece],
) -> Result<(), NoMemory>
    ensures { OnOk result (text.new ≡ text.old ++ quoted_value (scene_of lens.now) pieces.now) }
{
    for piece in pieces {
        push_piece(alloc, lens, text, piece)?;
    }
    Ok(())
}

fn push_piece(
    alloc: Global,
    lens: &Lens<'_>,
    text: &mut Text,
    piece: &Piece,
) -> Result<(), NoMemory>
    ensures { OnOk result (text.new ≡ text.old ++ quoted_piece (scene_of lens.now) piece.now) }
{
    match piece {
        Piece::Plain(plain) => text.push_str(plain.as_str()),
        Piece::Prop(name) => {
            let value = property(alloc, lens, name.as_str())?;
            text.push_str(value.as_str())
        }
        Piece::Meta(name) => {
            text.push_str("%(")?;
            text.push_str(name.as_str())?;
            text.push_str(")")
        }
    }
}
