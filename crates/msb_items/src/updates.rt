ghost use Rattle.std.specs.Prelude.{◌≡◌, [], ◌∷◌, ◌++◌, map, true, OnOk};
ghost use Rattle.msb_laws.specs.Results.{map_ok, all_ok};
ghost use Rattle.build_world.specs.Answers.{GivesFault};
ghost use Rattle.msb_glob.specs.FoldedNames.{seen_names};
ghost use Rattle.msb_items.specs.FoldedNames.{is_named_by};
ghost use Rattle.msb_items.specs.Items.{with_all_metadata, with_metadata_written};
ghost use Rattle.element_texts.specs.Seen.{context_of};
ghost use Rattle.msb_items.specs.Seen.{metadata_of, replaced_by, with_given};

use crate::item_names::is_named;
use crate::metadata::WrittenMetadata;
use build_world::EvalFault;
use element_texts::ElementContext;
use msb_glob::ItemNames;
use msb_paths::Present;
use msb_values::{Copied, Item, Name, NoMemory};
use std::alloc::Global;

/// The metadata that are written on an element, which are given to items of a type.
#[derive(Drop)]
pub(crate) struct GivenMetadata<'a> {
    pub(crate) kind: &'a Name,
    pub(crate) written: Vec<WrittenMetadata<'a>>,
}

/// Gives metadata to each of some items.
pub(crate) fn with_metadata<F: Present>(
    alloc: Global,
    context: &ElementContext<'_, F>,
    given: &GivenMetadata<'_>,
    items: Vec<Item>,
) -> Result<Vec<Item>, EvalFault>
    ensures { GivesFault (λ items. items.items) result
        (all_ok (with_given (context_of F.files context.now) given.now) items.items) }
{
    let mut done = Vec::new(alloc);
    push_all(alloc, context, given, &mut done, items)?;
    Ok(done)
}

fn push_all<F: Present>(
    alloc: Global,
    context: &ElementContext<'_, F>,
    given: &GivenMetadata<'_>,
    done: &mut Vec<Item>,
    items: Vec<Item>,
) -> Result<(), EvalFault>
    ensures { GivesFault (λ _. done.new.items) result
        (map_ok (λ more. done.old.items ++ more)
        (all_ok (with_given (context_of F.files context.now) given.now) items.items)) }
{
    for item in items {
        push_one(alloc, context, given, done, item)?;
    }
    Ok(())
}

fn push_one<F: Present>(
    alloc: Global,
    context: &ElementContext<'_, F>,
    given: &GivenMetadata<'_>,
    done: &mut Vec<Item>,
    item: Item,
) -> Result<(), EvalFault>
    ensures { GivesFault (λ _. done.new.items) result
        (map_ok (λ item. done.old.items ++ item ∷ [])
        (with_given (context_of F.files context.now) given.now item)) }
{
    let mut item = item;
    let written = given.written.as_slice();
    set_metadata(alloc, context, given.kind, written, &mut item)?;
    push(done, item)?;
    Ok(())
}

fn push(items: &mut Vec<Item>, item: Item) -> Result<(), NoMemory>
    ensures { OnOk result (items.new.items ≡ items.old.items ++ item ∷ []) }
{
    Ok(items.push(item)?)
}

/// What each of some items becomes that is named: a copy with the metadata that are written on an
/// element.
pub(crate) fn replacements<F: Present>(
    alloc: Global,
    context: &ElementContext<'_, F>,
    given: &GivenMetadata<'_>,
    names: &ItemNames,
    items: &[Item],
) -> Result<Vec<Option<Item>>, EvalFault>
    ensures { GivesFault (λ replacements. replacements.items) result
        (all_ok
        (λ item. replaced_by (context_of F.files context.now) given.now
        (is_named_by context.now.project.now (seen_names names.now) item) item)
        items.now) }
{
    let mut replacements = Vec::new(alloc);
    for item in items {
        let replacement = replacement(alloc, context, given, names, item)?;
        replacements.push(replacement)?;
    }
    Ok(replacements)
}

fn replacement<F: Present>(
    alloc: Global,
    context: &ElementContext<'_, F>,
    given: &GivenMetadata<'_>,
    names: &ItemNames,
    item: &Item,
) -> Result<Option<Item>, EvalFault>
    ensures { GivesFault (λ replacement. replacement) result
        (replaced_by (context_of F.files context.now) given.now
        (is_named_by context.now.project.now (seen_names names.now) item.now) item.now) }
{
    if is_named(alloc, context.project, names, item)? {
        return copy_with_metadata(alloc, context, given, item);
    }
    Ok(None)
}

fn copy_with_metadata<F: Present>(
    alloc: Global,
    context: &ElementContext<'_, F>,
    given: &GivenMetadata<'_>,
    item: &Item,
) -> Result<Option<Item>, EvalFault>
    ensures { GivesFault (λ replacement. replacement) result
        (replaced_by (context_of F.files context.now) given.now true item.now) }
{
    let mut item = item.copy()?;
    let written = given.written.as_slice();
    set_metadata(alloc, context, given.kind, written, &mut item)?;
    Ok(Some(item))
}

/// Gives metadata to an item, each of which sees those ahead of it.
pub(crate) fn set_metadata<F: Present>(
    alloc: Global,
    context: &ElementContext<'_, F>,
    kind: &Name,
    written: &[WrittenMetadata<'_>],
    item: &mut Item,
) -> Result<(), EvalFault>
    ensures { GivesFault (λ _. item.new) result
        (with_all_metadata (context_of F.files context.now) kind.now (map metadata_of written.now)
        item.old) }
{
    for metadata in written {
        set_one(alloc, context, kind, metadata, item)?;
    }
    Ok(())
}

fn set_one<F: Present>(
    alloc: Global,
    context: &ElementContext<'_, F>,
    kind: &Name,
    metadata: &WrittenMetadata<'_>,
    item: &mut Item,
) -> Result<(), EvalFault>
    ensures { GivesFault (λ _. item.new) result
        (with_metadata_written (context_of F.files context.now) kind.now item.old
        (metadata_of metadata.now)) }
{
    let value = metadata.value(alloc, &context.of_metadata(kind, item))?;
    let Some((name, text)) = value else {
        return Ok(());
    };
    item.meta.insert(name, text)?;
    Ok(())
}
