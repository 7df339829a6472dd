ghost use Rattle.std.specs.Prelude.{◌≡◌, IfOk};
ghost use Rattle.std.specs.Borrow.{LendsSoOk, sem};
ghost use Rattle.msb_values.specs.contracts.shared.Shared.{the_row};

use crate::{Copied, EqualClones, NoMemory};
use std::alloc::Global;
use std::marker::Model;
use std::sync::Arc;

/// A value that its copies share, in any threads.
pub struct Shared<T> {
    value: Arc<T>,
}

// A drop that is written out is proved here alone.
impl<T: Drop> Drop for Shared<T> {
    fn drop(self) {
        let Shared { value: _ } = self;
    }
}

impl<T> Model for Shared<T> {
    ghost use Rattle.std.specs.Arc.{arc_value};

    ghost Value = { T };

    ghost view = { λ s. arc_value s.value };
}

impl<T> Shared<T> {
    pub fn get(&self) -> &T
        ensures { result.now ≡ self.now }
    {
        &self.value
    }
}

impl<T: Drop> Shared<T> {
    pub fn new(alloc: Global, value: T) -> Result<Shared<T>, NoMemory>
        ensures { IfOk result (λ s. s ≡ value) }
    {
        Ok(Shared {
            value: Arc::new(alloc, value)?,
        })
    }
}

impl<T: EqualClones + Drop> Shared<T> {
    /// The value, to be changed; where copies share it, it is cloned first.
    pub fn make_mut(&mut self) -> Result<&mut T, NoMemory>
        ensures* writes_back { sem 𝓛
            (LendsSoOk (the_row T.row) T.row self.entry result (λ n w. n ≡ w) (λ n. n ≡ self.old)) }
        ensures value { IfOk result (λ x. x.now ≡ self.old) }
    {
        Ok(Arc::make_mut(&mut self.value)?)
    }

    /// The value; where copies share it, a clone of it.
    pub fn into_value(self) -> Result<T, NoMemory>
        ensures { IfOk result (λ value. value ≡ self) }
    {
        let Shared { value } = self;
        Ok(Arc::unwrap_or_clone(value)?)
    }
}

impl<T> Copied for Shared<T> {
    fn copy(&self) -> Result<Shared<T>, NoMemory> {
        Ok(Shared {
            value: Arc::try_clone(&self.value)?,
        })
    }
}
