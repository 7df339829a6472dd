ghost use Rattle.std.specs.Prelude.{◌≡◌, IfOk, string_bytes, option_copied};
ghost use Rattle.std.specs.List.{flat_map};
ghost use Rattle.msb_expand.specs.Answers.{GivesAs};
ghost use Rattle.msb_expand.specs.Entries.{open_entry_of};
ghost use Rattle.msb_laws.specs.Results.{map_ok};
ghost use Rattle.msb_expand.specs.Scenes.{scene_of};
ghost use Rattle.msb_expand.specs.Values.{given, entry_with, is_open, given_items};

use crate::references::{quoted_value, referred_items};
use crate::seen::Seen;
use crate::{ExpandFault, Lens};
use msb_expression::{Pieces, Steps};
use msb_values::{Text, is_blank};
use std::alloc::Global;

/// An entry of a list, as far as it is read.
#[derive(Drop)]
pub(crate) enum OpenEntry<'a> {
    /// Text.
    Begun(Text),
    /// The items of a reference.
    Given(Vec<Seen<'a>>),
    /// The items of a reference with this separator, which are one item.
    Joined(Vec<Seen<'a>>, Text),
}

impl<'a> OpenEntry<'a> {
    /// The entry that a reference is.
    pub(crate) fn of_items(
        alloc: Global,
        lens: &Lens<'a>,
        kind: &str,
        steps: &Steps,
        separator: Option<&Pieces>,
    ) -> Result<OpenEntry<'a>, ExpandFault>
        ensures { GivesAs open_entry_of result
            (map_ok given
            (given_items (scene_of lens.now) kind.now steps.now (option_copied separator.entry))) }
    {
        let items = referred_items(alloc, lens, kind, steps)?;
        match separator {
            None => Ok(OpenEntry::Given(items)),
            Some(pieces) => Ok(OpenEntry::Joined(items, quoted_value(alloc, lens, pieces)?)),
        }
    }

    /// Whether a reference may stand behind the entry.
    pub(crate) fn is_open(&self) -> bool
        ensures { result ≡ is_open (open_entry_of self.now) }
    {
        match self {
            OpenEntry::Begun(text) => is_blank(text.as_str()),
            OpenEntry::Given(_) | OpenEntry::Joined(_, _) => false,
        }
    }

    /// Adds text without `;`.
    pub(crate) fn push_text(&mut self, more: &str) -> Result<(), ExpandFault>
        ensures { GivesAs (λ _. open_entry_of self.new) result
            (entry_with (open_entry_of self.old) more.now) }
    {
        match self {
            OpenEntry::Begun(text) => Ok(text.push_str(more)?),
            OpenEntry::Given(_) | OpenEntry::Joined(_, _) if is_blank(more) => Ok(()),
            OpenEntry::Given(_) | OpenEntry::Joined(_, _) => Err(ExpandFault::MixedList),
        }
    }
}
