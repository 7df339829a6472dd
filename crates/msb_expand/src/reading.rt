ghost use Rattle.std.specs.Prelude.{◌≡◌, ◌==◌, [], option_copied};
ghost use Rattle.std.specs.List.{slice_split};
ghost use Rattle.msb_expand.specs.Answers.{GivesAs};
ghost use Rattle.msb_expand.specs.Entries.{reading_of};
ghost use Rattle.msb_laws.specs.Results.{map_ok};
ghost use Rattle.msb_expand.specs.Scenes.{scene_of};
ghost use Rattle.msb_expand.specs.Tokens.{referred, written};
ghost use Rattle.msb_expand.specs.Values.{
  reading,
  begun,
  closed,
  with_text,
  with_pieces,
  with_token,
};

use crate::open_entry::OpenEntry;
use crate::whole::Whole;
use crate::{Entry, ExpandFault, Lens};
use msb_expression::{Pieces, Steps};
use msb_values::Text;
use std::alloc::Global;

/// A list as far as it is read: its whole entries, and the entry that is open.
pub(crate) struct Reading<'a> {
    pub(crate) whole: Whole,
    pub(crate) entry: OpenEntry<'a>,
}

// A drop that is written out is proved here alone.
impl Drop for Reading<'_> {
    fn drop(self) {
        let Reading { whole: _, entry: _ } = self;
    }
}

impl<'a> Reading<'a> {
    pub(crate) fn new(alloc: Global) -> Reading<'a>
        ensures { reading_of result ≡ reading [] (begun []) }
    {
        Reading {
            whole: Whole::new(alloc),
            entry: OpenEntry::Begun(Text::from(String::new(alloc))),
        }
    }

    /// The entries, where nothing more comes.
    pub(crate) fn into_entries(self, alloc: Global) -> Result<Vec<Entry>, ExpandFault>
        ensures { GivesAs (λ entries. entries.items) result (closed (reading_of self.entry)) }
    {
        let Reading { mut whole, entry } = self;
        whole.push_entry(alloc, &entry)?;
        Ok(whole.into_entries())
    }

    /// Adds text, which is cut at each `;`.
    pub(crate) fn push_text(&mut self, alloc: Global, text: &str) -> Result<(), ExpandFault>
        ensures { GivesAs (λ _. reading_of self.new) result
            (with_pieces (reading_of self.old) (slice_split (λ b. b == 59) text.now)) }
    {
        let mut rest = text;
        while let Some((piece, after)) = rest.split_once(';') {
            self.push_piece(piece)?;
            self.close(alloc)?;
            rest = after;
        }
        self.push_piece(rest)
    }

    fn push_piece(&mut self, piece: &str) -> Result<(), ExpandFault>
        ensures { GivesAs (λ _. reading_of self.new) result
            (with_text (reading_of self.old) piece.now) }
    {
        self.entry.push_text(piece)
    }

    /// Makes the open entry whole, and begins the next.
    fn close(&mut self, alloc: Global) -> Result<(), ExpandFault>
        ensures { GivesAs (λ _. reading_of self.new) result
            (map_ok (λ whole. reading whole (begun [])) (closed (reading_of self.old))) }
    {
        self.whole.push_entry(alloc, &self.entry)?;
        self.entry = OpenEntry::Begun(Text::from(String::new(alloc)));
        Ok(())
    }

    /// Adds an item reference, which stands alone in its entry.
    pub(crate) fn push_items(
        &mut self,
        alloc: Global,
        lens: &Lens<'a>,
        kind: &str,
        steps: &Steps,
        separator: Option<&Pieces>,
    ) -> Result<(), ExpandFault>
        ensures { GivesAs (λ _. reading_of self.new) result
            (with_token (scene_of lens.now) (reading_of self.old)
            (referred kind.now steps.now (option_copied separator.entry))) }
    {
        if !self.entry.is_open() {
            return Err(ExpandFault::MixedList);
        }
        self.entry = OpenEntry::of_items(alloc, lens, kind, steps, separator)?;
        Ok(())
    }
}
