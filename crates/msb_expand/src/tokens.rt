ghost use Rattle.std.specs.Prelude.{◌≡◌, [], ◌∷◌};
ghost use Rattle.msb_expression.specs.declared.expression.Part.TheVariants.{Meta};
ghost use Rattle.msb_expression.specs.Reading.{reading};
ghost use Rattle.msb_expand.specs.declared.faults.ExpandFault.TheVariants.{Memory};
ghost use Rattle.msb_expand.specs.Answers.{GivesAs};
ghost use Rattle.msb_expand.specs.Scenes.{scene_of};
ghost use Rattle.msb_expand.specs.Again.{read_again};
ghost use Rattle.msb_expand.specs.Calls.{calls_text};
ghost use Rattle.msb_expand.specs.Reserved.{property_of};
ghost use Rattle.msb_expand.specs.Taken.{Takes, reference_token};
ghost use Rattle.msb_expand.specs.Tokens.{
  token_of,
  part_tokens,
  property_tokens,
  metadata_token,
  items_token,
  referred,
};

use crate::batched::bucket_token;
use crate::calls::calls_text;
use crate::filled::reference_text;
use crate::own::{default_token, own_token};
use crate::properties::{CowText, property};
use crate::{ExpandFault, Lens, Use};
use msb_expression::{Call, Expr, ExprFault, NoRoom, Part, Pieces, Steps, Word, parse};
use std::alloc::Global;

/// An item reference that has a value.
#[derive(Drop)]
pub(crate) struct Reference<'e> {
    pub(crate) kind: &'e str,
    pub(crate) steps: &'e Steps,
    pub(crate) separator: Option<&'e Pieces>,
}

impl<'e> Reference<'e> {
    pub(crate) fn of(kind: &'e Word, steps: &'e Steps, separator: &'e Option<Pieces>) -> Self
        ensures { reference_token result ≡ referred kind.now steps.now separator.now }
    {
        Reference {
            kind: kind.as_str(),
            steps,
            separator: separator.as_ref(),
        }
    }
}

/// What stands in place of a part of an expression.
#[derive(Drop)]
pub(crate) enum Token<'a, 'e> {
    /// Text of the expression.
    Plain(&'e str),
    Value(CowText<'a>),
    /// A reference that stays text.
    Kept(Word),
    Items(Reference<'e>),
    /// The value of a property, which is read again for item references.
    Again(Expr),
}

impl From<NoRoom> for ExpandFault {
    ghost from_gives = { λ _ e. e ≡ Memory };

    fn from(_: NoRoom) -> Self {
        ExpandFault::Memory
    }
}

/// What stands in place of a part, by where the expression stands.
pub(crate) fn part_token<'a, 'e>(
    alloc: Global,
    lens: &Lens<'a>,
    part: &'e Part,
) -> Result<Token<'a, 'e>, ExpandFault>
    ensures { Takes result (part_tokens (scene_of lens.now) part.now) }
{
    match part {
        Part::Plain(text) => Ok(Token::Plain(text.as_str())),
        Part::Prop(name) => property_token(alloc, lens, name.as_str()),
        Part::Func(subject, calls) => calls_token(alloc, lens, subject, calls.as_slice()),
        Part::Meta(qualifier, name) => metadata_token(alloc, lens, part, qualifier, name),
        Part::Items(kind, steps, separator) => items_token(alloc, lens, kind, steps, separator),
    }
}

fn calls_token<'a, 'e>(
    alloc: Global,
    lens: &Lens<'a>,
    subject: &'e Option<Word>,
    calls: &'e [Call],
) -> Result<Token<'a, 'e>, ExpandFault>
    ensures { Takes result
        (token_of (calls_text (scene_of lens.now) subject.now calls.now) ∷ []) }
{
    let value = calls_text(alloc, lens, subject, calls)?;
    Ok(Token::Value(CowText::Owned(value)))
}

#[tactic(auto, using(crate::proofs::Rereading::again_stops))]
fn property_token<'a, 'e>(
    alloc: Global,
    lens: &Lens<'a>,
    name: &'e str,
) -> Result<Token<'a, 'e>, ExpandFault>
    ensures { Takes result
        (property_tokens lens.now.usage (property_of (scene_of lens.now) name.now)) }
{
    let value = property(alloc, lens, name)?;
    match lens.usage {
        Use::Properties | Use::Definition => Ok(Token::Value(value)),
        Use::Metadata | Use::All | Use::Batched => {
            Ok(Token::Again(read_again(alloc, value.as_str())?))
        }
    }
}

/// The value of a property as an expression.
fn read_again(alloc: Global, value: &str) -> Result<Expr, ExpandFault>
    ensures { GivesAs (λ expr. expr.parts) result (read_again (reading value.now)) }
{
    match parse(alloc, value) {
        Ok(expr) => Ok(expr),
        Err(ExprFault::Memory) => Err(ExpandFault::Memory),
        Err(fault) => Err(ExpandFault::Expr(fault)),
    }
}

fn metadata_token<'a, 'e>(
    alloc: Global,
    lens: &Lens<'a>,
    part: &'e Part,
    qualifier: &'e Option<Word>,
    name: &'e Word,
) -> Result<Token<'a, 'e>, ExpandFault>
    requires { part.now ≡ Meta qualifier.now name.now }
    ensures { Takes result
        (metadata_token lens.now.usage (scene_of lens.now) qualifier.now name.now ∷ []) }
{
    match lens.usage {
        Use::Properties => Ok(Token::Kept(part.text(alloc)?)),
        Use::Definition => default_token(alloc, lens, qualifier, name.as_str()),
        Use::Metadata => own_token(alloc, lens, qualifier, name.as_str()),
        Use::All => Err(ExpandFault::MetadataHere),
        Use::Batched => bucket_token(alloc, lens, qualifier, name.as_str()),
    }
}

fn items_token<'a, 'e>(
    alloc: Global,
    lens: &Lens<'a>,
    kind: &'e Word,
    steps: &'e Steps,
    separator: &'e Option<Pieces>,
) -> Result<Token<'a, 'e>, ExpandFault>
    ensures { Takes result
        (items_token lens.now.usage (scene_of lens.now) kind.now steps.now separator.now ∷ []) }
{
    match lens.usage {
        Use::Properties => Ok(Token::Kept(reference_text(alloc, lens, kind, steps, separator)?)),
        Use::Definition => Err(ExpandFault::ItemsHere),
        Use::Metadata | Use::All | Use::Batched => {
            Ok(Token::Items(Reference::of(kind, steps, separator)))
        }
    }
}
