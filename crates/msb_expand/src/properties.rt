ghost use Rattle.std.specs.Prelude.{◌≡◌, IfOk, option_copied};
ghost use Rattle.msb_expand.specs.Scenes.{scene_of};
ghost use Rattle.msb_expand.specs.Reserved.{property_of};
ghost use Rattle.msb_expand.specs.Metadata.{text_or_none};
ghost use Rattle.msb_expand.specs.CowTexts.{cow_text};

use crate::Lens;
use msb_reserved::Reserved;
use msb_values::{Name, NoMemory, Text};
use std::alloc::Global;

/// A text that is borrowed from the scope, or one that was made.
#[derive(Drop)]
pub(crate) enum CowText<'a> {
    Borrowed(&'a str),
    Owned(Text),
}

impl<'a> CowText<'a> {
    pub(crate) fn as_str(&self) -> &str
        ensures { result.now ≡ cow_text self.now }
    {
        match self {
            CowText::Borrowed(text) => text,
            CowText::Owned(text) => text.as_str(),
        }
    }

    /// The text by itself.
    pub(crate) fn into_text(self, alloc: Global) -> Result<Text, NoMemory>
        ensures { IfOk result (λ text. text ≡ cow_text self.entry) }
    {
        match self {
            CowText::Borrowed(text) => Text::of(alloc, text),
            CowText::Owned(text) => Ok(text),
        }
    }
}

/// The value of a property: the engine's, else the project's, else empty. (MSBuild properties.)
pub(crate) fn property<'a>(
    alloc: Global,
    lens: &Lens<'a>,
    name: &str,
) -> Result<CowText<'a>, NoMemory>
    ensures { IfOk result (λ text. cow_text text ≡ property_of (scene_of lens.now) name.now) }
{
    let Some(key) = Name::look_up(alloc, name)? else {
        return Ok(CowText::Borrowed(""));
    };
    match Reserved::find(key.key()) {
        Some(reserved) => Ok(CowText::Owned(reserved.value(alloc, lens.project, lens.file)?)),
        None => Ok(CowText::Borrowed(text_or_empty(lens.scope.props.get(&key)))),
    }
}

pub(crate) fn text_or_empty<'a>(text: Option<&'a Text>) -> &'a str
    ensures { result.now ≡ text_or_none (option_copied text.entry) }
{
    match text {
        Some(text) => text.as_str(),
        None => "",
    }
}
