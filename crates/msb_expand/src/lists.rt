ghost use Rattle.std.specs.Prelude.{map};
ghost use Rattle.std.specs.List.{flat_map};
ghost use Rattle.msb_expand.specs.Answers.{GivesAs};
ghost use Rattle.msb_expand.specs.Entries.{reading_of, with_tokens};
ghost use Rattle.msb_expand.specs.Scenes.{scene_of};
ghost use Rattle.msb_expand.specs.Taken.{taken_tokens};
ghost use Rattle.msb_expand.specs.Tokens.{again_token, part_tokens};
ghost use Rattle.msb_expand.specs.Values.{with_token};

use crate::reading::Reading;
use crate::tokens::{Token, part_token};
use crate::{ExpandFault, Lens};
use msb_expression::Part;
use std::alloc::Global;

/// Reads what stands in place of each part.
pub(crate) fn read_parts<'a>(
    alloc: Global,
    reading: &mut Reading<'a>,
    lens: &Lens<'a>,
    parts: &[Part],
) -> Result<(), ExpandFault>
    ensures { GivesAs (λ _. reading_of reading.new) result
        (with_tokens (scene_of lens.now) (reading_of reading.old)
        (flat_map (part_tokens (scene_of lens.now)) parts.now)) }
{
    for part in parts {
        read_part(alloc, reading, lens, part)?;
    }
    Ok(())
}

fn read_part<'a>(
    alloc: Global,
    reading: &mut Reading<'a>,
    lens: &Lens<'a>,
    part: &Part,
) -> Result<(), ExpandFault>
    ensures { GivesAs (λ _. reading_of reading.new) result
        (with_tokens (scene_of lens.now) (reading_of reading.old)
        (part_tokens (scene_of lens.now) part.now)) }
{
    let token = part_token(alloc, lens, part)?;
    read_token(alloc, reading, lens, &token)
}

fn read_token<'a>(
    alloc: Global,
    reading: &mut Reading<'a>,
    lens: &Lens<'a>,
    token: &Token<'_, '_>,
) -> Result<(), ExpandFault>
    ensures { GivesAs (λ _. reading_of reading.new) result
        (with_tokens (scene_of lens.now) (reading_of reading.old) (taken_tokens token.now)) }
{
    match token {
        Token::Plain(text) => reading.push_text(alloc, text),
        Token::Value(value) => reading.push_text(alloc, value.as_str()),
        Token::Kept(text) => reading.push_text(alloc, text.as_str()),
        Token::Items(reference) => reading.push_items(
            alloc,
            lens,
            reference.kind,
            reference.steps,
            reference.separator,
        ),
        Token::Again(expr) => read_again(alloc, reading, lens, expr.parts.as_slice()),
    }
}

/// Reads the value of a property, which was read again for item references.
fn read_again<'a>(
    alloc: Global,
    reading: &mut Reading<'a>,
    lens: &Lens<'a>,
    parts: &[Part],
) -> Result<(), ExpandFault>
    ensures { GivesAs (λ _. reading_of reading.new) result
        (with_tokens (scene_of lens.now) (reading_of reading.old) (map again_token parts.now)) }
{
    for part in parts {
        read_again_part(alloc, reading, lens, part)?;
    }
    Ok(())
}

fn read_again_part<'a>(
    alloc: Global,
    reading: &mut Reading<'a>,
    lens: &Lens<'a>,
    part: &Part,
) -> Result<(), ExpandFault>
    ensures { GivesAs (λ _. reading_of reading.new) result
        (with_token (scene_of lens.now) (reading_of reading.old) (again_token part.now)) }
{
    match part {
        Part::Items(kind, steps, separator) => reading.push_items(
            alloc,
            lens,
            kind.as_str(),
            steps,
            separator.as_ref(),
        ),
        Part::Plain(_) | Part::Prop(_) | Part::Func(_, _) | Part::Meta(_, _) => {
            reading.push_text(alloc, part.text(alloc)?.as_str())
        }
    }
}
