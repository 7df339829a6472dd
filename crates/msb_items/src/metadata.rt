ghost use Rattle.std.specs.Prelude.{◌≡◌, ◌++◌, map, filter, not, IfOk, OnOk};
ghost use Rattle.msb_elements.specs.Nodes.{attributes_of};
ghost use Rattle.msb_elements.specs.View.{view};
ghost use Rattle.build_world.specs.Answers.{GivesFault};
ghost use Rattle.build_world.specs.Elements.{children_of, fault_of, seen_element};
ghost use Rattle.msb_values.specs.Caused.{UnlessMemory};
ghost use Rattle.msb_values.specs.declared.cause.Cause.TheVariants.{Reserved};
ghost use Rattle.msb_expand.specs.Computed.{is_computed, left_out};
ghost use Rattle.msb_items.specs.Definitions.{no_item};
ghost use Rattle.msb_items.specs.Metadata.{
  attribute_metadata,
  child_metadata,
  is_one_of,
  metadata_on,
  metadata_value,
  value_unless,
};
ghost use Rattle.element_texts.specs.Seen.{context_of};
ghost use Rattle.msb_items.specs.Seen.{metadata_of, reserved_of};

use build_world::{EvalFault, PlacedElement};
use element_texts::ElementContext;
use msb_expand::is_well_known;
use msb_paths::Present;
use msb_values::{Cause, Item, Name, NoMemory, Pairs, Text};
use std::alloc::Global;

/// What kind of element metadata are written on.
#[derive(Clone, Copy)]
pub(crate) enum Kind {
    Definition,
    Item,
    /// An item element in a target.
    TargetItem,
}

/// A metadata that is written on an element: its name and its value, its Condition if there is one,
/// and the element at which a fault is told.
#[derive(Drop)]
pub(crate) struct WrittenMetadata<'a> {
    name: &'a str,
    text: &'a str,
    condition: Option<&'a str>,
    element: PlacedElement<'a>,
}

/// The metadata that are written on an element: its attributes that are not reserved there, in byte
/// order of their names, and then its children. (Item element; ItemMetadata element.)
pub(crate) fn metadata_on<'a>(
    alloc: Global,
    kind: Kind,
    element: &PlacedElement<'a>,
) -> Result<Vec<WrittenMetadata<'a>>, NoMemory>
    ensures { IfOk result (λ written. map metadata_of written.items
        ≡ metadata_on (reserved_of kind) (seen_element element.now)) }
{
    let mut written = Vec::new(alloc);
    push_attributes(&mut written, kind, element)?;
    push_children(&mut written, element)?;
    Ok(written)
}

fn push_attributes<'a>(
    written: &mut Vec<WrittenMetadata<'a>>,
    kind: Kind,
    element: &PlacedElement<'a>,
) -> Result<(), NoMemory>
    ensures { OnOk result (map metadata_of written.new.items
        ≡ map metadata_of written.old.items ++ map (attribute_metadata (seen_element element.now))
        (filter (λ pair. not (is_one_of (reserved_of kind) pair.0))
        (attributes_of (view element.now.element.now)))) }
{
    for (name, text) in element.element.attributes() {
        if !is_reserved(kind, name.as_str()) {
            written.push(WrittenMetadata {
                name: name.as_str(),
                text: text.as_str(),
                condition: None,
                element: *element,
            })?;
        }
    }
    Ok(())
}

fn is_reserved(kind: Kind, name: &str) -> bool
    ensures { result ≡ is_one_of (reserved_of kind) name.now }
{
    match kind {
        Kind::Definition => matches!(name, "Condition" | "Label"),
        Kind::Item => matches!(
            name,
            "Include" | "Exclude" | "Remove" | "Update" | "Condition" | "Label"
        ),
        Kind::TargetItem => matches!(
            name,
            "KeepDuplicates"
                | "KeepMetadata"
                | "RemoveMetadata"
                | "Include"
                | "Exclude"
                | "Remove"
                | "Update"
                | "Condition"
                | "Label"
        ),
    }
}

fn push_children<'a>(
    written: &mut Vec<WrittenMetadata<'a>>,
    element: &PlacedElement<'a>,
) -> Result<(), NoMemory>
    ensures { OnOk result (map metadata_of written.new.items
        ≡ map metadata_of written.old.items ++ map child_metadata
        (children_of (seen_element element.now))) }
{
    for child in element.element.children() {
        written.push(child_metadata(element.child(child)))?;
    }
    Ok(())
}

fn child_metadata(child: PlacedElement<'_>) -> WrittenMetadata<'_>
    ensures { metadata_of result ≡ child_metadata (seen_element child.entry) }
{
    WrittenMetadata {
        name: child.element.name(),
        text: child.element.text(),
        condition: child.element.attribute("Condition"),
        element: child,
    }
}

impl WrittenMetadata<'_> {
    /// The name and the value in a context, if the Condition holds; a name that is computed is
    /// refused.
    pub(crate) fn value<F: Present>(
        &self,
        alloc: Global,
        context: &ElementContext<'_, F>,
    ) -> Result<Option<(Name, Text)>, EvalFault>
        ensures { GivesFault (λ pair. pair) result
            (metadata_value (context_of F.files context.now) (metadata_of self.now)) }
    {
        if !context.holds(alloc, &self.element, self.condition)? {
            return Ok(None);
        }
        match Name::look_up(alloc, self.name)? {
            Some(name) => self.value_of(alloc, context, name),
            None => Ok(None),
        }
    }

    fn value_of<F: Present>(
        &self,
        alloc: Global,
        context: &ElementContext<'_, F>,
        name: Name,
    ) -> Result<Option<(Name, Text)>, EvalFault>
        ensures { GivesFault (λ pair. pair) result
            (value_unless (is_computed name) (context_of F.files context.now) (metadata_of self.now)
            name) }
    {
        if is_computed(&name) {
            return Err(reserved_fault(alloc, &self.element, &name));
        }
        let text = context.text(alloc, &self.element, self.text)?;
        Ok(Some((name, text)))
    }
}

/// An item of which nothing but its type is seen.
pub(crate) fn no_item(alloc: Global) -> Item
    ensures { result ≡ no_item }
{
    Item {
        ident: Text::from(String::new(alloc)),
        recursive: Text::from(String::new(alloc)),
        meta: Pairs::new(alloc),
    }
}

pub(crate) fn reserved_fault(alloc: Global, element: &PlacedElement<'_>, name: &Name) -> EvalFault
    ensures { UnlessMemory result.cause (result
        ≡ fault_of (seen_element element.now) (Reserved name.now)) }
{
    match Text::of(alloc, name.key()) {
        Ok(text) => element.fault(alloc, Cause::Reserved(text)),
        Err(no_memory) => EvalFault::from(no_memory),
    }
}

/// Whether a metadata of this name, which is in lower case, is computed. (MSBuild well-known item
/// metadata.)
fn is_computed(name: &Name) -> bool
    ensures { result ≡ is_computed name.now }
{
    is_well_known(name) || is_left_out(name.key())
}

/// Whether a metadata of this name is computed in other builds, and not here.
fn is_left_out(name: &str) -> bool
    ensures { result ≡ is_one_of left_out name.now }
{
    matches!(
        name,
        "modifiedtime"
            | "createdtime"
            | "accessedtime"
            | "definingprojectfullpath"
            | "definingprojectdirectory"
            | "definingprojectname"
            | "definingprojectextension"
    )
}
