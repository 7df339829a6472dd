ghost use Rattle.std.specs.Prelude.{◌≡◌, [], ◌∷◌, IfOk, option_and_then};
ghost use Rattle.msb_values.specs.Pairs.{value_at};
ghost use Rattle.msb_values.specs.Keys.{key_of};
ghost use Rattle.msb_expand.specs.Answers.{GivesAs};
ghost use Rattle.msb_expand.specs.CowTexts.{cow_text};
ghost use Rattle.msb_expand.specs.Metadata.{metadata_of, text_or_none};
ghost use Rattle.msb_expand.specs.Scenes.{scene_of, defaults_at, with_defaults};
ghost use Rattle.msb_expand.specs.Taken.{Takes};
ghost use Rattle.msb_expand.specs.Tokens.{is_foreign, default_token, own_token};

use crate::properties::{CowText, text_or_empty};
use crate::seen::Seen;
use crate::tokens::Token;
use crate::{ExpandFault, Lens};
use msb_expression::Word;
use msb_values::{Item, Name, NoMemory};
use std::alloc::Global;

/// The default so far of the type at hand. (MSBuild item definitions.)
pub(crate) fn default_token<'a, 'e>(
    alloc: Global,
    lens: &Lens<'a>,
    qualifier: &'e Option<Word>,
    name: &'e str,
) -> Result<Token<'a, 'e>, ExpandFault>
    ensures { Takes result
        (default_token (scene_of lens.now) (scene_of lens.now).own qualifier.now name.now ∷ []) }
{
    match lens.own {
        None => Err(ExpandFault::MetadataHere),
        Some((kind, _)) if is_foreign(alloc, kind, qualifier)? => Err(ExpandFault::MetadataHere),
        Some((kind, _)) => Ok(Token::Value(CowText::Borrowed(default_value(
            alloc, lens, kind, name,
        )?))),
    }
}

/// The metadata of the item at hand. (MSBuild item metadata.)
pub(crate) fn own_token<'a, 'e>(
    alloc: Global,
    lens: &Lens<'a>,
    qualifier: &'e Option<Word>,
    name: &'e str,
) -> Result<Token<'a, 'e>, ExpandFault>
    ensures { Takes result
        (own_token (scene_of lens.now) (scene_of lens.now).own qualifier.now name.now ∷ []) }
{
    match lens.own {
        None => Err(ExpandFault::MetadataHere),
        Some((kind, _)) if is_foreign(alloc, kind, qualifier)? => Err(ExpandFault::MetadataHere),
        Some((kind, item)) => Ok(Token::Value(own_value(alloc, lens, kind, item, name)?)),
    }
}

/// Whether a reference is qualified by another type than this one.
fn is_foreign(alloc: Global, kind: &Name, qualifier: &Option<Word>) -> Result<bool, NoMemory>
    ensures { IfOk result (λ foreign. foreign ≡ is_foreign kind.now qualifier.now) }
{
    match qualifier {
        None => Ok(false),
        Some(qualifier) => match Name::look_up(alloc, qualifier.as_str())? {
            Some(key) => Ok(key != *kind),
            None => Ok(true),
        },
    }
}

fn default_value<'a>(
    alloc: Global,
    lens: &Lens<'a>,
    kind: &Name,
    name: &str,
) -> Result<&'a str, NoMemory>
    ensures { IfOk result
        (λ text. text.now
        ≡ text_or_none
        (option_and_then (λ key. value_at key (defaults_at (scene_of lens.now) kind.now))
        (key_of name.now))) }
{
    match (lens.scope.defaults.get(kind), Name::look_up(alloc, name)?) {
        (Some(defaults), Some(key)) => Ok(text_or_empty(defaults.get(&key))),
        _ => Ok(""),
    }
}

fn own_value<'a>(
    alloc: Global,
    lens: &Lens<'a>,
    kind: &Name,
    item: &'a Item,
    name: &str,
) -> Result<CowText<'a>, ExpandFault>
    ensures { GivesAs cow_text result
        (metadata_of lens.now.project.now
        (with_defaults (defaults_at (scene_of lens.now) kind.now) item.now) name.now) }
{
    let item = Seen::of(item, lens.scope.defaults.get(kind));
    item.named_metadata(alloc, lens.project, name)
}
