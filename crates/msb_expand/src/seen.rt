ghost use Rattle.std.specs.Prelude.{◌≡◌, IfOk, option_copied};
ghost use Rattle.msb_values.specs.Pairs.{value_at};
ghost use Rattle.msb_expand.specs.Scenes.{pairs_or_none, with_defaults};
ghost use Rattle.msb_values.specs.Overlays.{overlaid};
ghost use Rattle.msb_expand.specs.Answers.{GivesAs};
ghost use Rattle.msb_expand.specs.Functions.{plain_item, without_metadata};
ghost use Rattle.msb_expand.specs.CowTexts.{cow_text};
ghost use Rattle.msb_expand.specs.Metadata.{metadata_at, metadata_if, metadata_of, text_or_none};
ghost use Rattle.msb_expand.specs.Seen.{seen_item};

use crate::properties::{CowText, text_or_empty};
use crate::{ExpandFault, WellKnown};
use msb_values::{Copied, Item, Name, NoMemory, Pairs, Text, put_all_missing};
use std::alloc::Global;

/// An item of a reference, as the steps hand it on: nothing of the scope is copied before it has to
/// be.
#[derive(Drop)]
pub(crate) struct Seen<'a> {
    pub(crate) ident: CowText<'a>,
    pub(crate) recursive: &'a str,
    /// The item's own metadata, where they are still seen.
    pub(crate) meta: Option<&'a Pairs>,
    /// The metadata that its type has by default, where they are still seen.
    pub(crate) defaults: Option<&'a Pairs>,
}

impl<'a> Seen<'a> {
    /// An item as it stands in the scope, with the defaults of its type.
    pub(crate) fn of(item: &'a Item, defaults: Option<&'a Pairs>) -> Seen<'a>
        ensures { seen_item result ≡ with_defaults (pairs_or_none (option_copied defaults.entry))
            item.now }
    {
        Seen {
            ident: CowText::Borrowed(item.ident.as_str()),
            recursive: item.recursive.as_str(),
            meta: Some(&item.meta),
            defaults,
        }
    }

    /// An item that is a text and nothing else.
    pub(crate) fn plain(text: Text) -> Seen<'a>
        ensures { seen_item result ≡ plain_item text }
    {
        Seen {
            ident: CowText::Owned(text),
            recursive: "",
            meta: None,
            defaults: None,
        }
    }

    /// The item without its own metadata and without the defaults of its type.
    pub(crate) fn without_metadata(self) -> Seen<'a>
        ensures { seen_item result ≡ without_metadata (seen_item self.entry) }
    {
        Seen {
            ident: self.ident,
            recursive: self.recursive,
            meta: None,
            defaults: None,
        }
    }

    /// The item by itself, with the defaults of its type.
    pub(crate) fn item(&self, alloc: Global) -> Result<Item, NoMemory>
        ensures { IfOk result (λ item. item ≡ seen_item self.now) }
    {
        Ok(Item {
            ident: Text::of(alloc, self.ident.as_str())?,
            recursive: Text::of(alloc, self.recursive)?,
            meta: overlay(alloc, self.defaults, self.meta)?,
        })
    }

    /// A metadata of the item: well-known, or its own, or its type's default, or empty.
    /// (MSBuild well-known item metadata; MSBuild item definitions.)
    pub(crate) fn metadata(
        &self,
        alloc: Global,
        project: &str,
        name: &Name,
    ) -> Result<CowText<'a>, ExpandFault>
        ensures { GivesAs cow_text result (metadata_at project.now (seen_item self.now) name.now) }
    {
        match WellKnown::find(name.key()) {
            Some(known) => known.value(alloc, project, self),
            None => Ok(CowText::Borrowed(self.own_or_default(name))),
        }
    }

    /// The same by the name as it is written.
    pub(crate) fn named_metadata(
        &self,
        alloc: Global,
        project: &str,
        name: &str,
    ) -> Result<CowText<'a>, ExpandFault>
        ensures { GivesAs cow_text result (metadata_of project.now (seen_item self.now) name.now) }
    {
        let key = Name::look_up(alloc, name)?;
        self.metadata_if(alloc, project, &key)
    }

    /// The same, where there is a name.
    pub(crate) fn metadata_if(
        &self,
        alloc: Global,
        project: &str,
        key: &Option<Name>,
    ) -> Result<CowText<'a>, ExpandFault>
        ensures { GivesAs cow_text result (metadata_if project.now (seen_item self.now) key.now) }
    {
        match key {
            Some(key) => self.metadata(alloc, project, key),
            None => Ok(CowText::Borrowed("")),
        }
    }

    fn own_or_default(&self, name: &Name) -> &'a str
        ensures { result.now ≡ text_or_none (value_at name.now (seen_item self.now).meta) }
    {
        match text_in(self.meta, name) {
            Some(text) => text.as_str(),
            None => text_or_empty(text_in(self.defaults, name)),
        }
    }
}

fn text_in<'a>(pairs: Option<&'a Pairs>, name: &Name) -> Option<&'a Text>
    ensures { option_copied result ≡ value_at name.now (pairs_or_none (option_copied pairs.entry)) }
{
    match pairs {
        Some(pairs) => pairs.get(name),
        None => None,
    }
}

/// An item's own metadata, and the defaults that it does not have itself. (MSBuild item
/// definitions.)
fn overlay(alloc: Global, defaults: Option<&Pairs>, own: Option<&Pairs>) -> Result<Pairs, NoMemory>
    ensures { IfOk result
        (λ meta. meta ≡ overlaid (pairs_or_none (option_copied defaults.entry))
        (pairs_or_none (option_copied own.entry))) }
{
    let mut meta = copy_or_new(alloc, own)?;
    match defaults {
        Some(defaults) => put_all_missing(&mut meta, defaults)?,
        None => {}
    }
    Ok(meta)
}

fn copy_or_new(alloc: Global, pairs: Option<&Pairs>) -> Result<Pairs, NoMemory>
    ensures { IfOk result (λ copied. copied ≡ pairs_or_none (option_copied pairs.entry)) }
{
    match pairs {
        Some(pairs) => pairs.copy(),
        None => Ok(Pairs::new(alloc)),
    }
}
