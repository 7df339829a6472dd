ghost use Rattle.std.specs.Prelude.{
  ◌≡◌,
  ◌||◌,
  ◌&&◌,
  IfOk,
  OnOk,
  Some,
  [],
  ◌∷◌,
  map,
  option_copied,
  option_to_list,
};
ghost use Rattle.std.specs.List.{list_any};
ghost use Rattle.msb_batching.specs.References.{
  spoken,
  has,
  is_unqualified,
  batched,
  unqualified,
  listless,
};
ghost use Rattle.msb_batching.specs.Growing.{
  spoken_of,
  nothing,
  with_named,
  with_qualifiers,
  with_references,
  with_part,
  with_parts,
  with_texts,
};

use crate::reference::{Reference, read_reference};
use indexmap::IndexSet;
use msb_expression::{Expr, Part};
use msb_values::{Copied, Name, NoMemory};
use std::alloc::Global;

/// What the texts of an element speak of, each once and in order.
pub(crate) struct Mentions {
    /// The references to metadata.
    pub(crate) references: IndexSet<Reference>,
    /// The lists that item references name.
    pub(crate) named: IndexSet<Name>,
    /// The lists that qualify references to metadata.
    pub(crate) qualified: IndexSet<Name>,
    /// All these lists.
    pub(crate) mentioned: IndexSet<Name>,
}

// A drop that is written out is proved here alone.
impl Drop for Mentions {
    fn drop(self) {
        let Mentions {
            references: _,
            named: _,
            qualified: _,
            mentioned: _,
        } = self;
    }
}

impl Mentions {
    /// What these texts speak of, and last an item element's own type, which counts as named.
    pub(crate) fn of(
        alloc: Global,
        texts: &[&Expr],
        own: Option<&Name>,
    ) -> Result<Mentions, NoMemory>
        ensures { IfOk result (λ m. spoken_of m
            ≡ spoken (map (λ text. text.now) texts.now) (option_copied own.entry)) }
    {
        let mut mentions = Mentions::new(alloc);
        mentions.read_texts(alloc, texts)?;
        mentions.add_own(own)?;
        Ok(mentions)
    }

    /// The batched lists, in order of first mention.
    pub(crate) fn batched_lists(&self, alloc: Global) -> Result<Vec<&Name>, NoMemory>
        ensures { IfOk result (λ kinds. map (λ kind. kind.now) kinds.items
            ≡ batched (spoken_of self.now)) }
    {
        let all_named = self.has_unqualified();
        let mut kinds = Vec::new(alloc);
        for kind in self.mentioned.as_slice() {
            if self.is_batched(kind, all_named) {
                kinds.push(kind)?;
            }
        }
        Ok(kinds)
    }

    fn is_batched(&self, kind: &Name, all_named: bool) -> bool
        ensures { result
            ≡ (has kind.now (spoken_of self.now).qualified
            || (all_named && has kind.now (spoken_of self.now).named)) }
    {
        self.qualified.contains(kind) || (all_named && self.named.contains(kind))
    }

    /// Whether a reference is qualified by no list.
    fn has_unqualified(&self) -> bool
        ensures { result ≡ list_any is_unqualified (spoken_of self.now).references }
    {
        self.references
            .iter()
            .any(|reference| reference.kind.is_none())
    }

    /// The first reference that is qualified by no list, if no list is named.
    pub(crate) fn listless(&self) -> Option<&Name>
        ensures { option_copied result ≡ listless (spoken_of self.now) }
    {
        if self.named.is_empty() {
            first_unqualified(self.references.as_slice())
        } else {
            None
        }
    }

    fn new(alloc: Global) -> Mentions
        ensures { spoken_of result ≡ nothing }
    {
        Mentions {
            references: IndexSet::new(alloc),
            named: IndexSet::new(alloc),
            qualified: IndexSet::new(alloc),
            mentioned: IndexSet::new(alloc),
        }
    }

    fn read_texts(&mut self, alloc: Global, texts: &[&Expr]) -> Result<(), NoMemory>
        ensures { OnOk result (spoken_of self.new
            ≡ with_texts (spoken_of self.old) (map (λ text. text.now) texts.now)) }
    {
        for text in texts {
            self.read_parts(alloc, text.parts.as_slice())?;
        }
        Ok(())
    }

    fn read_parts(&mut self, alloc: Global, parts: &[Part]) -> Result<(), NoMemory>
        ensures { OnOk result (spoken_of self.new ≡ with_parts (spoken_of self.old) parts.now) }
    {
        for part in parts {
            self.read_part(alloc, part)?;
        }
        Ok(())
    }

    fn read_part(&mut self, alloc: Global, part: &Part) -> Result<(), NoMemory>
        ensures { OnOk result (spoken_of self.new ≡ with_part (spoken_of self.old) part.now) }
    {
        match part {
            Part::Plain(_) => Ok(()),
            Part::Prop(_) | Part::Func(_, _) => Ok(()),
            Part::Meta(qualifier, name) => match read_reference(alloc, qualifier, name)? {
                Some(reference) => self.add_reference(reference),
                None => Ok(()),
            },
            Part::Items(kind, _, _) => match Name::look_up(alloc, kind.as_str())? {
                Some(kind) => self.add_named(kind),
                None => Ok(()),
            },
        }
    }

    fn add_own(&mut self, own: Option<&Name>) -> Result<(), NoMemory>
        ensures { OnOk result (spoken_of self.new
            ≡ with_named (spoken_of self.old) (option_to_list (option_copied own.entry))) }
    {
        match own {
            Some(kind) => self.add_named(kind.copy()?),
            None => Ok(()),
        }
    }

    fn add_named(&mut self, kind: Name) -> Result<(), NoMemory>
        ensures { OnOk result (spoken_of self.new
            ≡ with_named (spoken_of self.old) (option_to_list (Some kind))) }
    {
        self.mentioned.insert(kind.copy()?)?;
        self.named.insert(kind)?;
        Ok(())
    }

    fn add_reference(&mut self, reference: Reference) -> Result<(), NoMemory>
        ensures { OnOk result (spoken_of self.new
            ≡ with_qualifiers
            (with_references (spoken_of self.old) (option_to_list (Some reference)))
            (option_to_list reference.kind)) }
    {
        if let Some(kind) = &reference.kind {
            self.add_qualifier(kind)?;
        }
        self.references.insert(reference)?;
        Ok(())
    }

    fn add_qualifier(&mut self, kind: &Name) -> Result<(), NoMemory>
        ensures { OnOk result (spoken_of self.new
            ≡ with_qualifiers (spoken_of self.old) (kind.now ∷ [])) }
    {
        self.mentioned.insert(kind.copy()?)?;
        self.qualified.insert(kind.copy()?)?;
        Ok(())
    }
}

fn first_unqualified(references: &[Reference]) -> Option<&Name>
    ensures { option_copied result ≡ unqualified references.now }
{
    for reference in references {
        if reference.kind.is_none() {
            return Some(&reference.name);
        }
    }
    None
}
