ghost use Rattle.std.specs.Prelude.{◌≡◌, ◌≤◌, ◌++◌, [], ◌∷◌, map, IfOk, OnOk, OnErr, string_bytes};
ghost use Rattle.std.specs.List.{flat_map};
ghost use Rattle.msb_expand.specs.Answers.{Gives, GivesAs};
ghost use Rattle.msb_expand.specs.Entries.{open_entry_of, size_with};
ghost use Rattle.msb_expand.specs.Functions.{plain_item};
ghost use Rattle.msb_expand.specs.Limits.{limit};
ghost use Rattle.msb_expand.specs.Seen.{seen_item};
ghost use Rattle.msb_expand.specs.Values.{
  given,
  begun,
  entries_in,
  text_entry,
  if_small,
  one_item,
  joined,
  uncut_byte,
};

use crate::joins::push_joined;
use crate::limits::LIMIT;
use crate::open_entry::OpenEntry;
use crate::seen::Seen;
use crate::{Entry, ExpandFault};
use msb_values::{Item, NoMemory, Pairs, Text, trim};
use std::alloc::Global;
use std::marker::Model;

/// The entries of a list that are whole, up to the limit.
#[derive(Drop)]
pub(crate) struct Whole {
    entries: Vec<Entry>,
    /// The bytes of the identities, with one more for each.
    size: usize,
}

impl Model for Whole {
    ghost use Rattle.std.specs.Prelude.{◌≡◌, ◌≤◌, List};
    ghost use Rattle.msb_expand.specs.declared.entry.Entry.{Entry};
    ghost use Rattle.msb_expand.specs.Limits.{limit};
    ghost use Rattle.msb_expand.specs.Values.{size_of};

    ghost Value = { List Entry };

    ghost view = { λ w. w.entries.items };

    ghost invariant = { λ w. (w.size ≡ size_of w.entries.items) × (w.size ≤ limit) };
}

impl Whole {
    pub(crate) fn new(alloc: Global) -> Whole
        ensures { result ≡ [] }
    {
        Whole {
            entries: Vec::new(alloc),
            size: 0,
        }
    }

    pub(crate) fn into_entries(self) -> Vec<Entry>
        ensures { result.items ≡ self }
    {
        self.entries
    }

    /// Adds what an entry that ends here gives.
    pub(crate) fn push_entry(
        &mut self,
        alloc: Global,
        entry: &OpenEntry<'_>,
    ) -> Result<(), ExpandFault>
        ensures { GivesAs (λ _. self.new) result
            (if_small (self.old ++ entries_in (open_entry_of entry.now))) }
    {
        match entry {
            OpenEntry::Begun(text) => self.push_text(alloc, trim(text.as_str()), true),
            OpenEntry::Given(items) => self.push_items(alloc, items),
            OpenEntry::Joined(items, separator) => self.push_joined(
                alloc,
                items,
                separator.as_str(),
            ),
        }
    }

    /// Adds an item of this identity, unless it is empty.
    fn push_text(&mut self, alloc: Global, ident: &str, written: bool) -> Result<(), ExpandFault>
        ensures { GivesAs (λ _. self.new) result
            (if_small (self.old ++ text_entry written ident.now)) }
    {
        let size = self.size;
        if ident.is_empty() {
            return Ok(());
        }
        let size = size_with(size, ident)?;
        let item = plain_item(alloc, ident)?;
        push(&mut self.entries, Entry { item, written })?;
        self.size = size;
        Ok(())
    }

    /// Adds the items that have an identity.
    fn push_items(&mut self, alloc: Global, items: &[Seen<'_>]) -> Result<(), ExpandFault>
        ensures { GivesAs (λ _. self.new) result
            (if_small (self.old ++ entries_in (given (map seen_item items.now)))) }
    {
        for item in items {
            self.push_item(alloc, item)?;
        }
        // Nothing more: all that is whole is within the limit.
        self.push_text(alloc, "", false)
    }

    fn push_item(&mut self, alloc: Global, item: &Seen<'_>) -> Result<(), ExpandFault>
        ensures { GivesAs (λ _. self.new) result
            (if_small (self.old ++ entries_in (given (seen_item item.now ∷ [])))) }
    {
        let size = self.size;
        let ident = item.ident.as_str();
        if ident.is_empty() {
            return Ok(());
        }
        let size = size_with(size, ident)?;
        let item = item.item(alloc)?;
        let entry = Entry {
            item,
            written: false,
        };
        push(&mut self.entries, entry)?;
        self.size = size;
        Ok(())
    }

    /// Adds one item of all these identities, joined by the separator.
    fn push_joined(
        &mut self,
        alloc: Global,
        items: &[Seen<'_>],
        separator: &str,
    ) -> Result<(), ExpandFault>
        ensures { GivesAs (λ _. self.new) result
            (if_small
            (self.old
            ++ entries_in (given (one_item (joined separator.now (map seen_item items.now)))))) }
    {
        let mut text = Text::of(alloc, "")?;
        push_joined(&mut text, items, separator)?;
        let ident = escape_semicolons(alloc, text.as_str())?;
        self.push_text(alloc, ident.as_str(), false)
    }
}

fn push(entries: &mut Vec<Entry>, entry: Entry) -> Result<(), NoMemory>
    ensures ok { OnOk result (entries.new.items ≡ entries.old.items ++ entry ∷ []) }
    ensures err { OnErr result (entries.new.items ≡ entries.old.items) }
{
    Ok(entries.push(entry)?)
}

/// The size with one more identity, where it is within the limit.
fn size_with(size: usize, ident: &str) -> Result<usize, ExpandFault>
    requires { size ≤ limit }
    ensures { Gives result (size_with size ident.now) }
{
    if ident.len() >= LIMIT - size {
        return Err(ExpandFault::TooLong);
    }
    Ok(size + ident.len() + 1)
}

/// An item without metadata.
fn plain_item(alloc: Global, ident: &str) -> Result<Item, NoMemory>
    ensures { IfOk result (λ item. item ≡ plain_item ident.now) }
{
    Ok(Item {
        ident: Text::of(alloc, ident)?,
        recursive: Text::of(alloc, "")?,
        meta: Pairs::new(alloc),
    })
}

/// The text with each `;` as `%3B`, so that it cuts nothing.
fn escape_semicolons(alloc: Global, text: &str) -> Result<Text, NoMemory>
    ensures { IfOk result (λ t. t ≡ flat_map uncut_byte text.now) }
{
    let mut written = Text::of(alloc, "")?;
    let mut rest = text;
    while let Some((before, after)) = rest.split_once(';') {
        written.push_str(before)?;
        written.push_str("%3B")?;
        rest = after;
    }
    written.push_str(rest)?;
    Ok(written)
}
