ghost use Rattle.std.specs.Prelude.{◌≡◌, IfOk};
ghost use Rattle.build_world.specs.Faults.{not_found_text};

use msb_elements::Place;
use msb_values::{Cause, NoMemory, Text};
use std::alloc::{AllocError, AllocFailed, Global};

/// Why a project is refused: the cause, with the element that has it.
///
/// A fault whose cause is [`Cause::Memory`] is want of memory. No element has it, and it is not
/// printed.
pub struct EvalFault {
    pub element: Option<ElementPlace>,
    pub cause: Cause,
}

// A drop that is written out is proved here alone.
impl Drop for EvalFault {
    fn drop(self) {
        let EvalFault {
            element: _,
            cause: _,
        } = self;
    }
}

/// Where an element stands: the path of the file that holds it, and its place there.
pub struct ElementPlace {
    pub file: Text,
    pub place: Place,
}

// A drop that is written out is proved here alone.
impl Drop for ElementPlace {
    fn drop(self) {
        let ElementPlace { file: _, place: _ } = self;
    }
}

impl From<NoMemory> for EvalFault {
    ghost use Rattle.build_world.specs.Faults.{out_of_memory};

    ghost from_gives = { λ _ fault. fault ≡ out_of_memory };

    fn from(_: NoMemory) -> EvalFault {
        EvalFault {
            element: None,
            cause: Cause::Memory,
        }
    }
}

impl From<AllocError> for EvalFault {
    ghost use Rattle.build_world.specs.Faults.{out_of_memory};

    ghost from_gives = { λ _ fault. fault ≡ out_of_memory };

    fn from(_: AllocError) -> EvalFault {
        EvalFault::from(NoMemory)
    }
}

impl<T: Drop> From<AllocFailed<T>> for EvalFault {
    ghost use Rattle.build_world.specs.Faults.{out_of_memory};

    ghost from_gives = { λ _ fault. fault ≡ out_of_memory };

    fn from(_: AllocFailed<T>) -> EvalFault {
        EvalFault::from(NoMemory)
    }
}

impl EvalFault {
    ghost use Rattle.build_world.specs.Faults.{fault_at, fault_text};

    /// A fault of the element that stands at this place of a file.
    pub(crate) fn at(file: Text, place: Place, cause: Cause) -> EvalFault
        ensures { result ≡ fault_at file place cause }
    {
        EvalFault {
            element: Some(ElementPlace { file, place }),
            cause,
        }
    }

    /// The file, the place and the cause, as they are printed.
    pub fn to_text(&self, alloc: Global) -> Result<Text, NoMemory>
        ensures { IfOk result (λ t. t ≡ fault_text self.now) }
    {
        let cause = self.cause.to_text(alloc)?;
        match &self.element {
            Some(element) => element.text_with(alloc, cause.as_str()),
            None => Ok(cause),
        }
    }
}

impl ElementPlace {
    ghost use Rattle.build_world.specs.Faults.{text_at};

    fn text_with(&self, alloc: Global, cause: &str) -> Result<Text, NoMemory>
        ensures { IfOk result (λ t. t ≡ text_at self.now cause.now) }
    {
        let file = self.file.as_str();
        let place = &self.place;
        Ok(Text::from(format!(in alloc; "{file} {place}: {cause}")?))
    }
}

/// What is said of a project file that is not there. (MSBuild command-line reference.)
pub fn not_found_text(alloc: Global, path: &str) -> Result<Text, NoMemory>
    ensures { IfOk result (λ text. text ≡ not_found_text path.now) }
{
    Ok(Text::from(format!(in alloc; "{path}: not found")?))
}
