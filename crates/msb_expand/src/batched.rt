ghost use Rattle.std.specs.Prelude.{◌≡◌, [], ◌∷◌, IfOk, option_copied};
ghost use Rattle.msb_expand.specs.Scenes.{scene_of};
ghost use Rattle.msb_expand.specs.Taken.{Takes};
ghost use Rattle.msb_expand.specs.Tokens.{
  token_if,
  bucket_value,
  reference_key,
  value_by,
  value_in,
  is_qualifier,
};

use crate::properties::CowText;
use crate::tokens::Token;
use crate::{Bucket, ExpandFault, Lens};
use msb_expression::Word;
use msb_values::{Name, NoMemory, Text};
use std::alloc::Global;

/// The bucket's value of a metadata reference, which is refused where the bucket holds none.
/// (MSBuild batching.)
pub(crate) fn bucket_token<'a, 'e>(
    alloc: Global,
    lens: &Lens<'a>,
    qualifier: &'e Option<Word>,
    name: &'e str,
) -> Result<Token<'a, 'e>, ExpandFault>
    ensures { Takes result
        (token_if (bucket_value (scene_of lens.now).bucket qualifier.now name.now) ∷ []) }
{
    match lens.bucket {
        None => Err(ExpandFault::MetadataHere),
        Some(bucket) => match value_of_bucket(alloc, bucket, qualifier, name)? {
            Some(value) => Ok(Token::Value(CowText::Borrowed(value))),
            None => Err(ExpandFault::MetadataHere),
        },
    }
}

fn value_of_bucket<'a>(
    alloc: Global,
    bucket: &'a Bucket,
    qualifier: &Option<Word>,
    name: &str,
) -> Result<Option<&'a str>, NoMemory>
    ensures { IfOk result (λ value. option_copied value
        ≡ value_by (reference_key qualifier.now name.now) bucket.now.values) }
{
    let Some(name) = Name::look_up(alloc, name)? else {
        return Ok(None);
    };
    match qualifier {
        None => Ok(value_in(bucket.values.as_slice(), None, &name)),
        Some(qualifier) => match Name::look_up(alloc, qualifier.as_str())? {
            Some(kind) => Ok(value_in(bucket.values.as_slice(), Some(&kind), &name)),
            None => Ok(None),
        },
    }
}

fn value_in<'a>(
    values: &'a [(Option<Name>, Name, Text)],
    qualifier: Option<&Name>,
    name: &Name,
) -> Option<&'a str>
    ensures { option_copied result ≡ value_in (option_copied qualifier.entry) name.now values.now }
{
    for (kind, key, value) in values {
        if is_qualifier(kind, qualifier) && key == name {
            return Some(value.as_str());
        }
    }
    None
}

fn is_qualifier(kind: &Option<Name>, qualifier: Option<&Name>) -> bool
    ensures { result ≡ is_qualifier kind.now (option_copied qualifier.entry) }
{
    match (kind, qualifier) {
        (None, None) => true,
        (Some(kind), Some(qualifier)) => kind == qualifier,
        _ => false,
    }
}
