ghost use Rattle.std.specs.Prelude.{
  ◌≡◌,
  ◌<◌,
  ◌+◌,
  [],
  ◌∷◌,
  ◌++◌,
  None,
  Some,
  length,
  IfOk,
  OnErr,
  OnOk,
  IfSome,
  slice_index_or,
};
ghost use Rattle.target_order.specs.Progress.{number_of};

use msb_values::{Copied, Name, NoMemory};
use std::alloc::Global;
use std::collections::BTreeMap;
use std::marker::Model;

/// Distinct names by their numbers, from 0 on in the order in which they were added.
pub struct Numbers {
    names: Vec<Name>,
    by_name: BTreeMap<Name, usize>,
}

// A drop that is written out is proved here alone.
impl Drop for Numbers {
    fn drop(self) {
        let Numbers {
            names: _,
            by_name: _,
        } = self;
    }
}

impl Model for Numbers {
    ghost use Rattle.std.specs.Prelude.{ℕ, List};
    ghost use Rattle.target_order.specs.Numbered.{IsNumbered};

    ghost Value = { List (List ℕ) };

    ghost view = { λ n. n.names.items };

    ghost invariant = { λ n. IsNumbered n.names.items n.by_name };
}

impl Numbers {
    pub fn new(alloc: Global) -> Numbers
        ensures { result ≡ [] }
    {
        Numbers {
            names: Vec::new(alloc),
            by_name: BTreeMap::new(alloc),
        }
    }

    pub fn len(&self) -> usize
        ensures { result ≡ length self.now }
    {
        self.names.len()
    }

    /// The number of this name.
    pub fn find(&self, name: &Name) -> Option<usize>
        ensures value { result ≡ number_of self.now name.now }
        ensures within { IfSome result (λ k. k < length self.now) }
    {
        self.by_name.get(name).copied()
    }

    pub fn name(&self, number: usize) -> &Name
        requires { number < length self.now }
        ensures { result.now ≡ slice_index_or self.now number [] }
    {
        &self.names[number]
    }

    /// Adds a name that is not here yet.
    pub fn add(&mut self, name: &Name) -> Result<(), NoMemory>
        requires { number_of self.old name.now ≡ None }
        ensures ok { OnOk result (self.new ≡ self.old ++ name.now ∷ []) }
    {
        self.names.reserve(1)?;
        let key = name.copy()?;
        let held = name.copy()?;
        self.by_name.insert(key, self.names.len())?;
        self.names.push(held)?;
        Ok(())
    }
}
