ghost use Rattle.std.specs.Prelude.{◌≡◌, ◌==◌, [], ◌++◌, length, IfOk, OnOk, OnErr};

use crate::{Copied, Item, List, NoMemory, Shared};
use std::alloc::{AllocError, Global};
use std::marker::Model;

/// The items of a type, which copies share until one of them is changed. (MSBuild items.)
pub struct SharedItems {
    /// None where there are no items, which takes no memory.
    shared: Option<Shared<List<Item>>>,
}

// A drop that is written out is proved here alone.
impl Drop for SharedItems {
    fn drop(self) {
        let SharedItems { shared: _ } = self;
    }
}

impl Model for SharedItems {
    ghost use Rattle.std.specs.Prelude.{List, [], unwrap_or};
    ghost use Rattle.msb_values.specs.declared.item.Item.{Item};

    ghost Value = { List Item };

    ghost view = { λ s. unwrap_or s.shared [] };
}

impl SharedItems {
    /// No items.
    pub fn none() -> SharedItems
        ensures { result ≡ [] }
    {
        SharedItems { shared: None }
    }

    pub fn of(alloc: Global, items: List<Item>) -> Result<SharedItems, NoMemory>
        ensures { IfOk result (λ s. s ≡ items) }
    {
        Ok(SharedItems {
            shared: Some(Shared::new(alloc, items)?),
        })
    }

    pub fn as_slice(&self) -> &[Item]
        ensures { result.now ≡ self.now }
    {
        match &self.shared {
            Some(items) => items.get().as_slice(),
            None => &[],
        }
    }

    pub fn len(&self) -> usize
        ensures { result ≡ length self.now }
    {
        self.as_slice().len()
    }

    pub fn is_empty(&self) -> bool
        ensures { result ≡ (length self.now == 0) }
    {
        self.as_slice().is_empty()
    }

    /// The items as a list of its own: where they are not shared, they move.
    pub fn into_list(self, alloc: Global) -> Result<List<Item>, NoMemory>
        ensures { IfOk result (λ l. l ≡ self) }
    {
        let SharedItems { shared } = self;
        match shared {
            Some(items) => items.into_value(),
            None => Ok(List::new(alloc)),
        }
    }

    /// Puts items behind these; where there is no memory, they stay as they were. Where they are
    /// not shared, none is copied.
    pub fn append(&mut self, alloc: Global, more: List<Item>) -> Result<(), NoMemory>
        ensures ok { OnOk result (self.new ≡ self.old ++ more) }
        ensures err { OnErr result (self.new ≡ self.old) }
    {
        match &mut self.shared {
            Some(items) => append(items, more),
            None => {
                self.shared = Some(Shared::new(alloc, more)?);
                Ok(())
            }
        }
    }
}

fn append(items: &mut Shared<List<Item>>, more: List<Item>) -> Result<(), NoMemory>
    ensures ok { OnOk result (items.new ≡ items.old ++ more) }
    ensures err { OnErr result (items.new ≡ items.old) }
{
    items.make_mut()?.append(more)
}

impl Copied for SharedItems {
    fn copy(&self) -> Result<SharedItems, NoMemory> {
        match &self.shared {
            Some(items) => Ok(SharedItems {
                shared: Some(items.copy()?),
            }),
            None => Ok(SharedItems::none()),
        }
    }
}

impl Clone for SharedItems {
    ghost use Rattle.std.specs.Prelude.{◌≡◌};

    ghost is_clone = { λ a b. b ≡ a };

    fn clone(&self) -> Result<SharedItems, AllocError> {
        match self.copy() {
            Ok(copied) => Ok(copied),
            Err(NoMemory) => Err(AllocError),
        }
    }
}
