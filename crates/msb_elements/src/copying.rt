ghost use Rattle.std.specs.Prelude.{◌≡◌, map, IfOk};
ghost use Rattle.msb_elements.specs.Nodes.{node, place_of, name_of, attributes_of, inner_text};
ghost use Rattle.msb_elements.specs.View.{view, views};

use crate::Element;
use msb_values::{Copied, NoMemory, Text};
use std::alloc::Global;

impl Element {
    /// An equal element, with all that stands below it.
    pub fn copy(&self, alloc: Global) -> Result<Element, NoMemory>
        ensures { IfOk result (λ e. view e ≡ view self.now) }
    {
        copy_element(alloc, self)
    }
}

#[cycle(copies)]
fn copy_element(alloc: Global, element: &Element) -> Result<Element, NoMemory>
    ensures { IfOk result (λ e. view e ≡ view element.now) }
{
    let children = copy_each(alloc, &element.children)?;
    alone(alloc, element, children)
}

#[cycle(copies)]
fn copy_each(alloc: Global, elements: &[Element]) -> Result<Vec<Element>, NoMemory>
    ensures { IfOk result (λ copies. map view copies.items ≡ map view elements.now) }
{
    let mut copies = Vec::with_capacity(alloc, elements.len())?;
    for element in elements {
        copies.push(copy_element(alloc, element)?)?;
    }
    Ok(copies)
}

/// A copy of the element with these children in place of its own.
fn alone(alloc: Global, element: &Element, children: Vec<Element>) -> Result<Element, NoMemory>
    ensures { IfOk result
        (λ e. view e ≡ node (place_of (view element.now)) (name_of (view element.now))
        (attributes_of (view element.now)) (inner_text (view element.now)) (views children.items)) }
{
    let place = element.place().copy()?;
    let name = Text::of(alloc, element.name())?;
    let attributes = pairs(alloc, element.attributes())?;
    let text = Text::of(alloc, element.text())?;
    Ok(Element::new(place, name, attributes, text, children))
}

fn pairs(alloc: Global, attributes: &[(Text, Text)]) -> Result<Vec<(Text, Text)>, NoMemory>
    ensures { IfOk result (λ copies. copies.items ≡ attributes.now) }
{
    let mut copies = Vec::with_capacity(alloc, attributes.len())?;
    for (name, value) in attributes {
        copies.push((name.copy()?, value.copy()?))?;
    }
    Ok(copies)
}
