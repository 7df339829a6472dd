ghost use Rattle.std.specs.Prelude.{◌≡◌, ◌++◌, map, IfOk, OnOk, option_to_list};
ghost use Rattle.msb_laws.specs.Results.{map_ok};
ghost use Rattle.msb_values.specs.Keys.{key_of};
ghost use Rattle.msb_values.specs.Pairs.{value_at};
ghost use Rattle.build_world.specs.Answers.{GivesFault};
ghost use Rattle.build_world.specs.Elements.{seen_element};
ghost use Rattle.element_texts.specs.Contexts.{text_at};
ghost use Rattle.element_texts.specs.Seen.{context_of};
ghost use Rattle.msb_items.specs.Transfers.{
  metadata_names,
  none_named,
  only_listed,
  only_named,
  transfer_at,
  transferred,
  with_value,
  without_listed,
};

use build_world::{EvalFault, PlacedElement};
use element_texts::ElementContext;
use msb_paths::Present;
use msb_values::{Copied, Item, List, Name, NoMemory, Pairs, Text, split_list};
use std::alloc::Global;

/// Which metadata of its source a copied item keeps. (Item element.)
pub(crate) enum Transfer {
    All,
    /// Those of these names.
    Only(List<Name>),
    /// Those of all other names.
    Without(List<Name>),
}

// A drop that is written out is proved here alone.
impl Drop for Transfer {
    fn drop(self) {
        match self {
            Transfer::All => {}
            Transfer::Only(_) => {}
            Transfer::Without(_) => {}
        }
    }
}

impl Transfer {
    /// What an element's KeepMetadata or RemoveMetadata says; one of the two may stand on it.
    pub(crate) fn of<F: Present>(
        alloc: Global,
        context: &ElementContext<'_, F>,
        element: &PlacedElement<'_>,
    ) -> Result<Transfer, EvalFault>
        ensures { GivesFault (λ transfer. transfer) result
            (transfer_at (context_of F.files context.now) (seen_element element.now)) }
    {
        if let Some(keep) = element.element.attribute("KeepMetadata") {
            return read_keep(alloc, context, element, keep);
        }
        match element.element.attribute("RemoveMetadata") {
            Some(remove) => read_remove(alloc, context, element, remove),
            None => Ok(Transfer::All),
        }
    }

    /// The items with the metadata that they keep.
    pub(crate) fn apply(&self, alloc: Global, items: &mut [Item]) -> Result<(), NoMemory>
        ensures { OnOk result (items.new ≡ map (transferred self.now) items.old) }
    {
        for item in items.iter_mut() {
            self.apply_to(alloc, item)?;
        }
        Ok(())
    }

    fn apply_to(&self, alloc: Global, item: &mut Item) -> Result<(), NoMemory>
        ensures { OnOk result (item.new ≡ transferred self.now item.old) }
    {
        match self {
            Transfer::All => Ok(()),
            Transfer::Only(names) => {
                item.meta = keep_named(alloc, names.as_slice(), &item.meta)?;
                Ok(())
            }
            Transfer::Without(names) => { take_named(&mut item.meta, names.as_slice()) }
        }
    }
}

fn read_keep<F: Present>(
    alloc: Global,
    context: &ElementContext<'_, F>,
    element: &PlacedElement<'_>,
    keep: &str,
) -> Result<Transfer, EvalFault>
    ensures { GivesFault (λ transfer. transfer) result
        (map_ok only_listed
        (text_at (context_of F.files context.now) (seen_element element.now) keep.now)) }
{
    let text = context.text(alloc, element, keep)?;
    Ok(parse_keep(alloc, text.as_str())?)
}

fn parse_keep(alloc: Global, text: &str) -> Result<Transfer, NoMemory>
    ensures { IfOk result (λ transfer. transfer ≡ only_listed text.now) }
{
    let entries = split_list(alloc, text)?;
    if entries.is_empty() {
        return Ok(Transfer::All);
    }
    Ok(Transfer::Only(metadata_names(alloc, entries.as_slice())?))
}

fn read_remove<F: Present>(
    alloc: Global,
    context: &ElementContext<'_, F>,
    element: &PlacedElement<'_>,
    remove: &str,
) -> Result<Transfer, EvalFault>
    ensures { GivesFault (λ transfer. transfer) result
        (map_ok without_listed
        (text_at (context_of F.files context.now) (seen_element element.now) remove.now)) }
{
    let text = context.text(alloc, element, remove)?;
    Ok(parse_remove(alloc, text.as_str())?)
}

fn parse_remove(alloc: Global, text: &str) -> Result<Transfer, NoMemory>
    ensures { IfOk result (λ transfer. transfer ≡ without_listed text.now) }
{
    let entries = split_list(alloc, text)?;
    Ok(Transfer::Without(metadata_names(alloc, entries.as_slice())?))
}

/// The names that the entries of a list are.
fn metadata_names(alloc: Global, entries: &[Text]) -> Result<List<Name>, NoMemory>
    ensures { IfOk result (λ names. names ≡ metadata_names entries.now) }
{
    let mut names = List::new(alloc);
    for entry in entries {
        push_name(alloc, &mut names, entry.as_str())?;
    }
    Ok(names)
}

fn push_name(alloc: Global, names: &mut List<Name>, text: &str) -> Result<(), NoMemory>
    ensures { OnOk result (names.new ≡ names.old ++ option_to_list (key_of text.now)) }
{
    match Name::look_up(alloc, text)? {
        Some(name) => names.push(name),
        None => Ok(()),
    }
}

/// The metadata of these names.
fn keep_named(alloc: Global, names: &[Name], meta: &Pairs) -> Result<Pairs, NoMemory>
    ensures { IfOk result (λ kept. kept ≡ only_named names.now meta.now) }
{
    let mut kept = Pairs::new(alloc);
    for name in names {
        keep(&mut kept, name, meta)?;
    }
    Ok(kept)
}

fn keep(kept: &mut Pairs, name: &Name, meta: &Pairs) -> Result<(), NoMemory>
    ensures { OnOk result (kept.new ≡ with_value name.now (value_at name.now meta.now) kept.old) }
{
    match meta.get(name) {
        Some(value) => kept.insert(name.copy()?, value.copy()?),
        None => Ok(()),
    }
}

/// Takes the metadata of these names away.
fn take_named(meta: &mut Pairs, names: &[Name]) -> Result<(), NoMemory>
    ensures { OnOk result (meta.new ≡ none_named names.now meta.old) }
{
    for name in names {
        meta.take(name)?;
    }
    Ok(())
}
