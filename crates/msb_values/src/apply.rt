ghost use Rattle.std.specs.Prelude.{◌≡◌, ◌++◌, IfOk, OnOk, OnErr};
ghost use Rattle.msb_values.specs.declared.change.Change.TheVariants.{
  SetProp,
  AddItems,
  RemoveItems,
  SetMeta,
};
ghost use Rattle.msb_values.specs.Pairs.{changed_at};
ghost use Rattle.msb_values.specs.Changes.{
  all_applied,
  applied,
  with_added,
  without_named,
  with_metadata_on,
};

use crate::changed_items::{items_except, with_metadata_on};
use crate::name_map::NameMap;
use crate::{Change, Copied, Item, List, Lists, Name, NoMemory, Pairs, Scope, SharedItems, Text};
use std::alloc::Global;

impl Scope {
    /// Does what a target's body changed; where there is no memory, the scope stays as it was.
    ///
    /// A property gets its value, and items are put behind those of their type. An item goes whose
    /// identity equals one of the texts without case; an item that equals one of the given gets the
    /// metadata. (MSBuild targets; PropertyGroup element; ItemGroup element.)
    pub fn apply(&mut self, alloc: Global, change: &Change) -> Result<(), NoMemory>
        ensures ok { OnOk result (self.new ≡ applied change.now self.old) }
        ensures err { OnErr result (self.new ≡ self.old) }
    {
        match change {
            Change::SetProp(name, value) => self.props.insert(name.copy()?, value.copy()?),
            Change::AddItems(kind, items) => add_items(alloc, &mut self.items, kind, items),
            Change::RemoveItems(kind, texts) => remove_items(alloc, &mut self.items, kind, texts),
            Change::SetMeta(kind, given, pairs) => {
                set_metadata(alloc, &mut self.items, kind, given, pairs)
            }
        }
    }

    /// Does what some changes say, one after another. Where there is no memory, nothing is said of
    /// the scope.
    pub fn apply_all(&mut self, alloc: Global, changes: &[Change]) -> Result<(), NoMemory>
        ensures { OnOk result (self.new ≡ all_applied changes.now self.old) }
    {
        for change in changes {
            self.apply(alloc, change)?;
        }
        Ok(())
    }
}

impl Copied for Scope {
    fn copy(&self) -> Result<Scope, NoMemory> {
        Ok(Scope {
            globals: self.globals.copy()?,
            props: self.props.copy()?,
            items: self.items.copy()?,
            defaults: self.defaults.copy()?,
        })
    }
}

impl Copied for Change {
    fn copy(&self) -> Result<Change, NoMemory> {
        match self {
            Change::SetProp(name, value) => copy_property(name, value),
            Change::AddItems(kind, items) => copy_addition(kind, items),
            Change::RemoveItems(kind, texts) => copy_removal(kind, texts),
            Change::SetMeta(kind, given, pairs) => copy_metadata(kind, given, pairs),
        }
    }
}

fn copy_property(name: &Name, value: &Text) -> Result<Change, NoMemory>
    ensures { IfOk result (λ change. change ≡ SetProp name.now value.now) }
{
    Ok(Change::SetProp(name.copy()?, value.copy()?))
}

fn copy_addition(kind: &Name, items: &List<Item>) -> Result<Change, NoMemory>
    ensures { IfOk result (λ change. change ≡ AddItems kind.now items.now) }
{
    Ok(Change::AddItems(kind.copy()?, items.copy()?))
}

fn copy_removal(kind: &Name, texts: &List<Text>) -> Result<Change, NoMemory>
    ensures { IfOk result (λ change. change ≡ RemoveItems kind.now texts.now) }
{
    Ok(Change::RemoveItems(kind.copy()?, texts.copy()?))
}

fn copy_metadata(kind: &Name, given: &List<Item>, pairs: &Pairs) -> Result<Change, NoMemory>
    ensures { IfOk result (λ change. change ≡ SetMeta kind.now given.now pairs.now) }
{
    let kind = kind.copy()?;
    let given = given.copy()?;
    Ok(Change::SetMeta(kind, given, pairs.copy()?))
}

fn add_items(
    alloc: Global,
    lists: &mut Lists,
    kind: &Name,
    items: &List<Item>,
) -> Result<(), NoMemory>
    ensures ok { OnOk result (lists.new ≡ with_added kind.now items.now lists.old) }
    ensures err { OnErr result (lists.new ≡ lists.old) }
{
    lists.names_rise();
    let more = items.copy()?;
    match lists.get(kind) {
        Some(_) => append(alloc, lists, kind, more),
        None => lists.insert(kind.copy()?, SharedItems::of(alloc, more)?),
    }
}

/// Puts items behind those of a type that has some.
fn append(alloc: Global, lists: &mut Lists, kind: &Name, more: List<Item>) -> Result<(), NoMemory>
    ensures ok { OnOk result (lists.new ≡ changed_at kind.now (λ items. items ++ more) lists.old) }
    ensures err { OnErr result (lists.new ≡ lists.old) }
{
    match &mut lists.shared {
        Some(entries) => append_own(alloc, entries.make_mut()?, kind, more),
        None => Ok(()),
    }
}

fn append_own(
    alloc: Global,
    lists: &mut NameMap<SharedItems>,
    kind: &Name,
    more: List<Item>,
) -> Result<(), NoMemory>
    ensures ok { OnOk result (lists.new ≡ changed_at kind.now (λ items. items ++ more) lists.old) }
    ensures err { OnErr result (lists.new ≡ lists.old) }
{
    let mut items = lists.replace(kind, SharedItems::none());
    let appended = items.append(alloc, more);
    lists.replace(kind, items);
    appended
}

fn remove_items(
    alloc: Global,
    lists: &mut Lists,
    kind: &Name,
    texts: &List<Text>,
) -> Result<(), NoMemory>
    ensures ok { OnOk result (lists.new ≡ changed_at kind.now (without_named texts.now) lists.old) }
    ensures err { OnErr result (lists.new ≡ lists.old) }
{
    match lists.get(kind) {
        None => Ok(()),
        Some(items) => {
            let kept = items_except(alloc, items.as_slice(), texts.as_slice())?;
            lists.replace(kind, SharedItems::of(alloc, kept)?)?;
            Ok(())
        }
    }
}

fn set_metadata(
    alloc: Global,
    lists: &mut Lists,
    kind: &Name,
    given: &List<Item>,
    pairs: &Pairs,
) -> Result<(), NoMemory>
    ensures ok { OnOk result
        (lists.new ≡ changed_at kind.now (with_metadata_on given.now pairs.now) lists.old) }
    ensures err { OnErr result (lists.new ≡ lists.old) }
{
    match lists.get(kind) {
        None => Ok(()),
        Some(items) => {
            let changed = with_metadata_on(alloc, items.as_slice(), given.as_slice(), pairs)?;
            lists.replace(kind, SharedItems::of(alloc, changed)?)?;
            Ok(())
        }
    }
}
