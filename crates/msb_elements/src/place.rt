ghost use Rattle.std.specs.Prelude.{◌≡◌, [], ◌∷◌, ◌++◌, IfOk};

use msb_values::{Copied, NoMemory};
use std::alloc::Global;
use std::fmt;
use std::marker::Model;

/// Where an element stands in its file: the numbers of the children, counted from 0, on the way to
/// it from the root.
///
/// It is printed as `/` for the root, and as `/1/0` for the first child of the root's second child.
pub struct Place {
    numbers: Vec<u64>,
}

// A drop that is written out is proved here alone.
impl Drop for Place {
    fn drop(self) {
        let Place { numbers: _ } = self;
    }
}

impl Model for Place {
    ghost use Rattle.std.specs.Prelude.{ℕ, List};

    ghost Value = { List ℕ };

    ghost view = { λ p. p.numbers.items };
}

impl Place {
    /// The place of the root.
    pub fn root(alloc: Global) -> Place
        ensures { result ≡ [] }
    {
        Place {
            numbers: Vec::new(alloc),
        }
    }

    /// The place of the child with this number.
    pub fn child(&self, number: u64) -> Result<Place, NoMemory>
        ensures { IfOk result (λ place. place ≡ self.now ++ number ∷ []) }
    {
        let mut numbers = Vec::with_capacity(*self.numbers.allocator(), self.numbers.len() + 1)?;
        numbers.extend_from_slice(&self.numbers)?;
        numbers.push(number)?;
        Ok(Place { numbers })
    }

    /// The numbers of the children on the way from the root.
    pub fn numbers(&self) -> &[u64]
        ensures { result.now ≡ self.now }
    {
        &self.numbers
    }
}

impl Copied for Place {
    fn copy(&self) -> Result<Place, NoMemory> {
        Ok(Place {
            numbers: self.numbers.clone()?,
        })
    }
}

impl fmt::Display for Place {
    ghost use Rattle.std.specs.Prelude.{Some};
    ghost use Rattle.msb_elements.specs.Places.{shown_place};

    ghost output = { λ place. Some (shown_place place) };

    fn fmt<W: fmt::Write>(&self, f: &mut fmt::Formatter<W>) -> fmt::Result {
        if self.numbers.is_empty() {
            return write!(f, "/");
        }
        for number in &self.numbers {
            write!(f, "/{number}")?;
        }
        Ok(())
    }
}
