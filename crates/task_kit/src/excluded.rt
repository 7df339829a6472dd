ghost use Rattle.std.specs.Prelude.{
  ◌≡◌,
  [],
  ◌∷◌,
  ◌++◌,
  filter,
  not,
  IfOk,
  OnOk,
  if◌then◌else◌,
};
ghost use Rattle.msb_glob.specs.FoldedNames.{folded_names, is_named_by, seen_names, with_idents};
ghost use Rattle.task_kit.specs.Included.{idents_of, names_excluded};

use msb_glob::{ItemNames, Pattern};
use msb_values::{Item, List, NoMemory};
use std::alloc::Global;

/// What the entries of Exclude name, among which are these patterns. (CreateItem task; MSBuild
/// items, wildcards to specify items.)
pub(crate) fn excluded_names(
    alloc: Global,
    patterns: List<Pattern>,
    entries: &[Item],
) -> Result<ItemNames, NoMemory>
    ensures { IfOk result
        (λ names. seen_names names ≡ folded_names (names_excluded patterns entries.now)) }
{
    let mut names = ItemNames::of(alloc, patterns);
    insert_idents(alloc, &mut names, entries)?;
    Ok(names)
}

fn insert_idents(alloc: Global, names: &mut ItemNames, entries: &[Item]) -> Result<(), NoMemory>
    ensures { OnOk result
        (seen_names names.new ≡ with_idents (seen_names names.old) (idents_of entries.now)) }
{
    for entry in entries {
        names.insert(alloc, entry.ident.as_str())?;
    }
    Ok(())
}

/// The items that are not named.
pub(crate) fn without_excluded(
    alloc: Global,
    dir: &str,
    names: &ItemNames,
    items: Vec<Item>,
) -> Result<Vec<Item>, NoMemory>
    ensures { IfOk result (λ kept. kept.items
        ≡ filter (λ item. not (is_named_by dir.now (seen_names names.now) item.ident))
        items.items) }
{
    let mut kept = Vec::new(alloc);
    for item in items {
        let excluded = names.names(alloc, dir, item.ident.as_str())?;
        keep_unless(&mut kept, excluded, item)?;
    }
    Ok(kept)
}

fn keep_unless(kept: &mut Vec<Item>, excluded: bool, item: Item) -> Result<(), NoMemory>
    ensures { OnOk result
        (kept.new.items ≡ kept.old.items ++ (if excluded then [] else item ∷ [])) }
{
    if excluded {
        return Ok(());
    }
    Ok(kept.push(item)?)
}
