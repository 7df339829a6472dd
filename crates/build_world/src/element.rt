ghost use Rattle.std.specs.Prelude.{◌≡◌, IfOk};
ghost use Rattle.msb_values.specs.Caused.{UnlessMemory};
ghost use Rattle.msb_elements.specs.View.{view};
ghost use Rattle.build_world.specs.Elements.{at, seen_element, seen_placed, fault_of};
ghost use Rattle.build_world.specs.Faults.{fault_text};

use crate::{EvalFault, Placed};
use msb_elements::Element;
use msb_values::{Cause, Copied, NoMemory, Text};
use std::alloc::Global;

/// An element of a project, by reference, with the path of the file that holds it.
#[derive(Clone, Copy)]
pub struct PlacedElement<'a> {
    pub file: &'a str,
    pub element: &'a Element,
}

impl<'a> PlacedElement<'a> {
    pub fn of(placed: &'a Placed) -> PlacedElement<'a>
        ensures { seen_element result ≡ seen_placed placed.now }
    {
        PlacedElement {
            file: placed.file.as_str(),
            element: &placed.element,
        }
    }

    /// A child of the element, in the same file.
    pub fn child(&self, element: &'a Element) -> PlacedElement<'a>
        ensures { seen_element result ≡ at self.now.file.now (view element.now) }
    {
        PlacedElement {
            file: self.file,
            element,
        }
    }

    /// This cause as a fault of the element; want of memory for its file or its place is want of
    /// memory.
    pub fn fault(&self, alloc: Global, cause: Cause) -> EvalFault
        ensures { UnlessMemory result.cause (result ≡ fault_of (seen_element self.now) cause) }
    {
        match self.placed_fault(alloc, cause) {
            Ok(fault) => fault,
            Err(no_memory) => EvalFault::from(no_memory),
        }
    }

    /// This cause as a fault of the element, as it is printed.
    pub fn fault_text(&self, alloc: Global, cause: Cause) -> Result<Text, NoMemory>
        ensures { IfOk result (λ text. text ≡ fault_text (fault_of (seen_element self.now) cause)) }
    {
        let fault = self.placed_fault(alloc, cause)?;
        fault.to_text(alloc)
    }

    fn placed_fault(&self, alloc: Global, cause: Cause) -> Result<EvalFault, NoMemory>
        ensures { IfOk result (λ fault. fault ≡ fault_of (seen_element self.now) cause) }
    {
        let file = Text::of(alloc, self.file)?;
        let place = self.element.place().copy()?;
        Ok(EvalFault::at(file, place, cause))
    }
}
