ghost use Rattle.std.specs.Prelude.{map};
ghost use Rattle.std.specs.List.{flat_map};
ghost use Rattle.msb_expand.specs.Answers.{GivesAs};
ghost use Rattle.msb_expand.specs.Limits.{grown, grown_by};
ghost use Rattle.msb_expand.specs.Scenes.{scene_of};
ghost use Rattle.msb_expand.specs.Taken.{reference_token, taken_tokens};
ghost use Rattle.msb_expand.specs.Tokens.{again_token, part_tokens};
ghost use Rattle.msb_expand.specs.Values.{token_text};

use crate::joins::push_joined;
use crate::limits::grow;
use crate::references::{quoted_value, referred_items};
use crate::tokens::{Reference, Token, part_token};
use crate::{ExpandFault, Lens};
use msb_expression::Part;
use msb_values::Text;
use std::alloc::Global;

/// Adds what stands in place of each part.
pub(crate) fn push_parts(
    alloc: Global,
    text: &mut Text,
    lens: &Lens<'_>,
    parts: &[Part],
) -> Result<(), ExpandFault>
    ensures { GivesAs (λ _. text.new) result
        (grown_by (token_text (scene_of lens.now)) text.old
        (flat_map (part_tokens (scene_of lens.now)) parts.now)) }
{
    for part in parts {
        push_part(alloc, text, lens, part)?;
    }
    Ok(())
}

fn push_part(
    alloc: Global,
    text: &mut Text,
    lens: &Lens<'_>,
    part: &Part,
) -> Result<(), ExpandFault>
    ensures { GivesAs (λ _. text.new) result
        (grown_by (token_text (scene_of lens.now)) text.old
        (part_tokens (scene_of lens.now) part.now)) }
{
    let token = part_token(alloc, lens, part)?;
    push_token(alloc, text, lens, &token)
}

fn push_token(
    alloc: Global,
    text: &mut Text,
    lens: &Lens<'_>,
    token: &Token<'_, '_>,
) -> Result<(), ExpandFault>
    ensures { GivesAs (λ _. text.new) result
        (grown_by (token_text (scene_of lens.now)) text.old (taken_tokens token.now)) }
{
    match token {
        Token::Plain(plain) => grow(text, plain),
        Token::Value(value) => grow(text, value.as_str()),
        Token::Kept(kept) => grow(text, kept.as_str()),
        Token::Items(reference) => push_items(alloc, text, lens, reference),
        Token::Again(expr) => push_again(alloc, text, lens, expr.parts.as_slice()),
    }
}

/// Adds the value of a property, which was read again.
fn push_again(
    alloc: Global,
    text: &mut Text,
    lens: &Lens<'_>,
    parts: &[Part],
) -> Result<(), ExpandFault>
    ensures { GivesAs (λ _. text.new) result
        (grown_by (token_text (scene_of lens.now)) text.old (map again_token parts.now)) }
{
    for part in parts {
        push_again_part(alloc, text, lens, part)?;
    }
    Ok(())
}

fn push_again_part(
    alloc: Global,
    text: &mut Text,
    lens: &Lens<'_>,
    part: &Part,
) -> Result<(), ExpandFault>
    ensures { GivesAs (λ _. text.new) result
        (grown text.old (token_text (scene_of lens.now) (again_token part.now))) }
{
    match part {
        Part::Items(kind, steps, separator) => {
            push_items(alloc, text, lens, &Reference::of(kind, steps, separator))
        }
        Part::Plain(_) | Part::Prop(_) | Part::Func(_, _) | Part::Meta(_, _) => {
            grow(text, part.text(alloc)?.as_str())
        }
    }
}

/// Adds the identities of the items of a reference, joined by its separator.
fn push_items(
    alloc: Global,
    text: &mut Text,
    lens: &Lens<'_>,
    reference: &Reference<'_>,
) -> Result<(), ExpandFault>
    ensures { GivesAs (λ _. text.new) result
        (grown text.old (token_text (scene_of lens.now) (reference_token reference.now))) }
{
    let items = referred_items(alloc, lens, reference.kind, reference.steps)?;
    match reference.separator {
        None => push_joined(text, &items, ";"),
        Some(pieces) => {
            let separator = quoted_value(alloc, lens, pieces)?;
            push_joined(text, &items, separator.as_str())
        }
    }
}
