ghost use Rattle.std.specs.Prelude.{◌≡◌, [], IfOk};

use msb_values::{Copied, List, Name, NoMemory, Shared};
use std::alloc::Global;
use std::marker::Model;

/// A list of names that its copies share.
pub struct SharedNames {
    /// None where there are none, which takes no memory.
    names: Option<Shared<List<Name>>>,
}

// A drop that is written out is proved here alone.
impl Drop for SharedNames {
    fn drop(self) {
        let SharedNames { names: _ } = self;
    }
}

impl Model for SharedNames {
    ghost use Rattle.std.specs.Prelude.{ℕ, List, [], unwrap_or};

    ghost Value = { List (List ℕ) };

    ghost view = { λ s. unwrap_or s.names [] };
}

impl SharedNames {
    pub fn none() -> SharedNames
        ensures { result ≡ [] }
    {
        SharedNames { names: None }
    }

    pub fn of(alloc: Global, names: &List<Name>) -> Result<SharedNames, NoMemory>
        ensures { IfOk result (λ s. s ≡ names.now) }
    {
        Ok(SharedNames {
            names: Some(Shared::new(alloc, names.copy()?)?),
        })
    }

    pub fn as_slice(&self) -> &[Name]
        ensures { result.now ≡ self.now }
    {
        match &self.names {
            Some(names) => names.get().as_slice(),
            None => &[],
        }
    }
}

impl Copied for SharedNames {
    fn copy(&self) -> Result<SharedNames, NoMemory> {
        match &self.names {
            Some(names) => Ok(SharedNames {
                names: Some(names.copy()?),
            }),
            None => Ok(SharedNames::none()),
        }
    }
}
