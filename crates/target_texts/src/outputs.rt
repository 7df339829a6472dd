ghost use Rattle.std.specs.Prelude.{
  ◌≡◌,
  ◌++◌,
  IfOk,
  OnOk,
  true,
  map,
  codes,
  option_copied,
  option_map,
};
ghost use Rattle.msb_values.specs.Keys.{key_of};
ghost use Rattle.msb_expand.specs.Joins.{each_behind};
ghost use Rattle.msb_expand.specs.Values.{joined};
ghost use Rattle.task_trait.specs.Escaping.{taken_item};
ghost use Rattle.target_incremental.specs.Inferred.{inferred};
ghost use Rattle.build_world.specs.Answers.{GivesFault};
ghost use Rattle.build_world.specs.Elements.{seen_element};
ghost use Rattle.target_texts.specs.Answered.{Pushes};
ghost use Rattle.target_texts.specs.Outputs.{
  change_to,
  changes_to,
  destination_of,
  output,
  output_if,
  output_items,
  outputs,
  property_named,
};
ghost use Rattle.target_texts.specs.Seen.{seen_destination, seen_context};

use build_world::{EvalFault, PlacedElement};
use element_texts::ElementContext;
use msb_expand::is_reserved;
use msb_files::FileView;
use msb_values::{Cause, Change, Copied, Item, List, Name, NoMemory, Text};
use std::alloc::Global;
use target_incremental::infer;
use task_trait::{Param, taken_items};

/// Where an Output goes. (Output element.)
enum Destination {
    /// To the items of a type.
    Items(Name),
    Property(Name),
}

// A drop that is written out is proved here alone.
impl Drop for Destination {
    fn drop(self) {
        match self {
            Destination::Items(_) => {}
            Destination::Property(_) => {}
        }
    }
}

/// What the Outputs of a task element change, of what is given to them, is put behind the changes:
/// all of it, or what stands ahead of the first fault. (Output element.)
pub fn push_outputs(
    alloc: Global,
    context: &ElementContext<'_, FileView<'_>>,
    given: &List<Param>,
    element: &PlacedElement<'_>,
    changes: &mut List<Change>,
) -> Result<(), EvalFault>
    ensures { Pushes result changes.old changes.new
        (outputs (seen_context context.now) given.now (seen_element element.now)) }
{
    for child in element.element.children() {
        push_output(alloc, context, given, &element.child(child), changes)?;
    }
    Ok(())
}

fn push_output(
    alloc: Global,
    context: &ElementContext<'_, FileView<'_>>,
    given: &List<Param>,
    element: &PlacedElement<'_>,
    changes: &mut List<Change>,
) -> Result<(), EvalFault>
    ensures { Pushes result changes.old changes.new
        (output (seen_context context.now) given.now (seen_element element.now)) }
{
    if context.element_holds(alloc, element)? {
        return push_held(alloc, given, element, changes);
    }
    Ok(())
}

// What an Output changes whose Condition holds.
fn push_held(
    alloc: Global,
    given: &List<Param>,
    output: &PlacedElement<'_>,
    changes: &mut List<Change>,
) -> Result<(), EvalFault>
    ensures { Pushes result changes.old changes.new
        (output_if true given.now (seen_element output.now)) }
{
    let destination = Destination::of(alloc, output)?;
    push_given(alloc, destination, given, output, changes)?;
    Ok(())
}

// The change that an Output makes of what it is given, if it is given anything.
fn push_given(
    alloc: Global,
    destination: Option<Destination>,
    given: &List<Param>,
    output: &PlacedElement<'_>,
    changes: &mut List<Change>,
) -> Result<(), NoMemory>
    ensures { OnOk result
        (changes.new ≡ changes.old ++ changes_to (option_map seen_destination destination)
        (output_items given.now (seen_element output.now))) }
{
    let Some(destination) = destination else {
        return Ok(());
    };
    match output_items(alloc, given, output)? {
        Some(items) => changes.push(destination.change(alloc, items)?),
        None => Ok(()),
    }
}

// The items of the parameter that an Output names.
fn output_items<'g>(
    alloc: Global,
    given: &'g List<Param>,
    output: &PlacedElement<'_>,
) -> Result<Option<&'g [Item]>, NoMemory>
    ensures { IfOk result (λ items. option_copied items
        ≡ output_items given.entry.now (seen_element output.now)) }
{
    let Some(written) = output.element.attribute("TaskParameter") else {
        return Ok(None);
    };
    match Name::look_up(alloc, written)? {
        Some(name) => Ok(items_of(given, &name)),
        None => Ok(None),
    }
}

fn items_of<'g>(given: &'g List<Param>, name: &Name) -> Option<&'g [Item]>
    ensures { option_copied result ≡ inferred given.entry.now name.now }
{
    match infer(given, name) {
        Some(items) => Some(items.as_slice()),
        None => None,
    }
}

impl Destination {
    // Where an Output goes; a property that the engine sets is refused.
    fn of(alloc: Global, output: &PlacedElement<'_>) -> Result<Option<Destination>, EvalFault>
        ensures { GivesFault (option_map seen_destination) result
            (destination_of (seen_element output.now)) }
    {
        if let Some(kind) = output.element.attribute("ItemName") {
            return match Name::look_up(alloc, kind)? {
                Some(kind) => Ok(Some(Destination::Items(kind))),
                None => Ok(None),
            };
        }
        match output.element.attribute("PropertyName") {
            Some(name) => Destination::of_property(alloc, output, name),
            None => Ok(None),
        }
    }

    fn of_property(
        alloc: Global,
        output: &PlacedElement<'_>,
        name: &str,
    ) -> Result<Option<Destination>, EvalFault>
        ensures { GivesFault (option_map seen_destination) result
            (property_named (seen_element output.now) (key_of name.now)) }
    {
        match Name::look_up(alloc, name)? {
            Some(name) if is_reserved(&name) => Err(output.fault(
                alloc,
                Cause::Reserved(Text::from(name)),
            )),
            Some(name) => Ok(Some(Destination::Property(name))),
            None => Ok(None),
        }
    }

    // Items are added to their type, and a property gets the identities joined by `;`. They are
    // escaped.
    fn change(self, alloc: Global, items: &[Item]) -> Result<Change, NoMemory>
        ensures { IfOk result (λ change. change
            ≡ change_to (seen_destination self) (map taken_item items.now)) }
    {
        let items = taken_items(alloc, items)?;
        match self {
            Destination::Items(kind) => Ok(Change::AddItems(kind, items)),
            Destination::Property(name) => {
                Ok(Change::SetProp(name, join(alloc, items.as_slice())?))
            }
        }
    }
}

// The identities with `;` between them.
fn join(alloc: Global, items: &[Item]) -> Result<Text, NoMemory>
    ensures { IfOk result (λ text. text ≡ joined (codes ";") items.now) }
{
    match items {
        [] => Text::of(alloc, ""),
        [first, others @ ..] => {
            let mut text = first.ident.copy()?;
            push_each(&mut text, others)?;
            Ok(text)
        }
    }
}

fn push_each(text: &mut Text, items: &[Item]) -> Result<(), NoMemory>
    ensures { OnOk result (text.new ≡ text.old ++ each_behind (codes ";") items.now) }
{
    for item in items {
        text.push_str(";")?;
        text.push_str(item.ident.as_str())?;
    }
    Ok(())
}
