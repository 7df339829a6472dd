ghost use Rattle.std.specs.Prelude.{◌≡◌, ◌++◌, [], ◌∷◌, IfOk, None, OnOk};
ghost use Rattle.std.specs.List.{flat_map};
ghost use Rattle.msb_expand.specs.Reserved.{from_root};
ghost use Rattle.std.specs.Str.{str_to_ascii_lowercase};
ghost use Rattle.msb_values.specs.Changes.{with_metadata};
ghost use Rattle.msb_values.specs.Names.{bad_place, is_name_byte};
ghost use Rattle.msb_values.specs.Pairs.{all_put};
ghost use Rattle.task_msbuild.specs.Gathered.{output_items, source_of};

use crate::name::literal_name;
use msb_values::{Copied, Item, List, Name, NoMemory, Pairs, Text};
use result_cache::{RequestKey, Returned};
use std::alloc::Global;
use task_trait::handed_items;

/// Puts the items behind the others that the targets of a request have returned.
pub(crate) fn push_returned(
    alloc: Global,
    items: &mut List<Item>,
    key: &RequestKey,
    returned: &[Returned],
) -> Result<(), NoMemory>
    ensures { OnOk result (items.new ≡ items.old ++ flat_map (output_items key.now) returned.now) }
{
    for target in returned {
        items.append(output_items(alloc, key, target)?)?;
    }
    Ok(())
}

/// The items without escapes, with where they come from as metadata.
fn output_items(
    alloc: Global,
    key: &RequestKey,
    returned: &Returned,
) -> Result<List<Item>, NoMemory>
    ensures { IfOk result (λ items. items ≡ output_items key.now returned.now) }
{
    let mut items = List::new(alloc);
    for item in handed_items(alloc, returned.items.as_slice())?.into_vec() {
        items.push(with_source(alloc, key, &returned.target, item)?)?;
    }
    Ok(items)
}

fn with_source(alloc: Global, key: &RequestKey, target: &Name, item: Item) -> Result<Item, NoMemory>
    ensures { IfOk result (λ output. output ≡ with_metadata (source_of key.now target.now) item) }
{
    let mut item = item;
    put(
        alloc,
        &mut item.meta,
        "msbuildsourceprojectfile",
        full_path(alloc, key)?,
    )?;
    put(
        alloc,
        &mut item.meta,
        "msbuildsourcetargetname",
        Text::from(target.copy()?),
    )?;
    Ok(item)
}

fn put(alloc: Global, metadata: &mut Pairs, name: &'static str, value: Text) -> Result<(), NoMemory>
    requires { bad_place is_name_byte name.now ≡ None }
    ensures { OnOk result
        (metadata.new ≡ all_put metadata.old ((str_to_ascii_lowercase name.now, value) ∷ [])) }
{
    let name = literal_name(alloc, name)?;
    metadata.insert(name, value)
}

fn full_path(alloc: Global, key: &RequestKey) -> Result<Text, NoMemory>
    ensures { IfOk result (λ path. path ≡ from_root key.now.instance.path) }
{
    let mut path = Text::of(alloc, "/")?;
    path.push_str(key.instance.path.as_str())?;
    Ok(path)
}
