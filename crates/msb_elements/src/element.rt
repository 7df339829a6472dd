ghost use Rattle.std.specs.Prelude.{◌≡◌, length, map, slice_get, option_map};
ghost use Rattle.std.specs.Option.{option_copied};
ghost use Rattle.msb_values.specs.Pairs.{value_at};
ghost use Rattle.msb_elements.specs.Nodes.{
  node,
  place_of,
  name_of,
  attributes_of,
  inner_text,
  children_in,
  without_children,
};

use crate::Place;
use msb_values::Text;
use std::alloc::Global;

/// A project file. (MSBuild project file schema reference.)
#[derive(Drop)]
pub struct Project {
    pub root: Element,
}

/// An element of a project file.
pub struct Element {
    place: Place,
    name: Text,
    attributes: Vec<(Text, Text)>,
    text: Text,
    pub(crate) children: Vec<Element>,
}

// A drop that is written out is proved here alone.
impl Drop for Element {
    fn drop(self) {
        let Element {
            place: _,
            name: _,
            attributes: _,
            text: _,
            children: _,
        } = self;
    }
}

impl Element {
    ghost use Rattle.msb_elements.specs.View.{view, views};

    pub(crate) fn new(
        place: Place,
        name: Text,
        attributes: Vec<(Text, Text)>,
        text: Text,
        children: Vec<Element>,
    ) -> Element
        ensures { view result ≡ node place name attributes.items text (views children.items) }
    {
        Element {
            place,
            name,
            attributes,
            text,
            children,
        }
    }

    pub fn place(&self) -> &Place
        ensures { result.now ≡ place_of (view self.now) }
    {
        &self.place
    }

    pub fn name(&self) -> &str
        ensures { result.now ≡ name_of (view self.now) }
    {
        self.name.as_str()
    }

    /// The attributes with their values, in byte order of their names.
    pub fn attributes(&self) -> &[(Text, Text)]
        ensures { result.now ≡ attributes_of (view self.now) }
    {
        &self.attributes
    }

    /// The value of the attribute of exactly this name, if there is one.
    pub fn attribute(&self, name: &str) -> Option<&str>
        ensures { option_copied result ≡ value_at name.now (attributes_of (view self.now)) }
    {
        value_of(&self.attributes, name)
    }

    /// The text, which is empty where the element has none.
    pub fn text(&self) -> &str
        ensures { result.now ≡ inner_text (view self.now) }
    {
        self.text.as_str()
    }

    pub fn children(&self) -> &[Element]
        ensures { map view result.now ≡ children_in (view self.now) }
    {
        &self.children
    }

    /// How many children there are.
    pub fn count(&self) -> usize
        ensures { result ≡ length (children_in (view self.now)) }
    {
        self.children().len()
    }

    /// The element without its children, and these, which move.
    pub fn split(self, alloc: Global) -> (Element, Vec<Element>)
        ensures element { view result.0 ≡ without_children (view self) }
        ensures children { map view result.1.items ≡ children_in (view self) }
    {
        let Element {
            place,
            name,
            attributes,
            text,
            children,
        } = self;
        let alone = Element::new(place, name, attributes, text, Vec::new(alloc));
        (alone, children)
    }

    /// The child with this number, counted from 0.
    pub fn child(&self, at: usize) -> Option<&Element>
        ensures { option_map (λ child. view child.now) result
            ≡ slice_get (children_in (view self.now)) at }
    {
        self.children().get(at)
    }
}

pub(crate) fn value_of<'a>(attributes: &'a [(Text, Text)], name: &str) -> Option<&'a str>
    ensures { option_copied result ≡ value_at name.now attributes.now }
{
    for (key, value) in attributes {
        if name == key.as_str() {
            return Some(value.as_str());
        }
    }
    None
}
