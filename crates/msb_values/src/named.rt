ghost use Rattle.std.specs.Prelude.{
  ◌≡◌,
  ◌==◌,
  [],
  length,
  IfOk,
  OnOk,
  OnErr,
  option_copied,
  unwrap_or,
};
ghost use Rattle.std.specs.Ordering.{nat_cmp};
ghost use Rattle.std.specs.BTreeMap.{insert_entry};
ghost use Rattle.std.specs.Cmp.Lexicographic.{slice_cmp};
ghost use Rattle.msb_values.specs.Pairs.{value_at, AreRising, changed_at, without_name, all_put};

use crate::name_map::NameMap;
use crate::{Copied, Name, NamedValue, NoMemory, Shared, SharedItems, Text};
use std::alloc::{AllocError, Global};
use std::collections::btree_map;
use std::marker::Model;

/// What each of some names has: each name once, in byte order of the names.
///
/// Copies share all of it until one of them is changed, in any threads, and then the names and what
/// they have that stay.
pub struct Named<T> {
    alloc: Global,
    /// None where no name has been given anything, which takes no memory.
    pub(crate) shared: Option<Shared<NameMap<T>>>,
    /// Empty: it stands for the entries where there are none to share.
    none: NameMap<T>,
}

// A drop that is written out is proved here alone.
impl<T: Drop> Drop for Named<T> {
    fn drop(self) {
        let Named {
            alloc: _,
            shared: _,
            none: _,
        } = self;
    }
}

/// Names with texts, as properties or metadata are.
pub type Pairs = Named<Text>;

/// Item types with their items, which copies share.
pub type Lists = Named<SharedItems>;

/// Item types with the metadata that their items have by default.
pub type Defaults = Named<Pairs>;

impl<T> Model for Named<T> {
    ghost use Rattle.std.specs.Prelude.{◌≡◌, ℕ, List, [], unwrap_or};

    ghost Value = { List (List ℕ × T) };

    ghost view = { λ p. unwrap_or p.shared [] };

    ghost invariant = { λ p. p.none ≡ [] };
}

impl<T> Named<T> {
    pub fn new(alloc: Global) -> Named<T>
        ensures { result ≡ [] }
    {
        Named {
            alloc,
            shared: None,
            none: NameMap::new(alloc),
        }
    }

    pub(crate) fn entries(&self) -> &NameMap<T>
        ensures { result.now ≡ self.now }
    {
        match &self.shared {
            Some(entries) => entries.get(),
            None => &self.none,
        }
    }

    pub fn len(&self) -> usize
        ensures { result ≡ length self.now }
    {
        self.entries().len()
    }

    pub fn is_empty(&self) -> bool
        ensures { result ≡ (length self.now == 0) }
    {
        self.entries().len() == 0
    }

    /// The names are distinct, each above the one before it in byte order.
    pub fn names_rise(&self)
        ensures { AreRising self.now }
    {
        self.entries().names_rise();
    }

    /// What a name has, if it is there.
    pub fn get(&self, name: &Name) -> Option<&T>
        ensures { option_copied result ≡ value_at name.now self.now }
    {
        self.entries().get(name)
    }

    /// The names with what they have, in byte order of the names.
    pub fn iter(&self) -> btree_map::Iter<'_, Name, T>
        ensures { result ≡ self.now }
    {
        self.entries().iter()
    }
}

impl<T: NamedValue + Drop> Named<T> {
    /// The names with these values; the last value of a name holds.
    pub fn of(alloc: Global, entries: Vec<(Name, T)>) -> Result<Named<T>, NoMemory>
        ensures { IfOk result (λ pairs. pairs ≡ all_put [] entries.items) }
    {
        let mut pairs = Named::new(alloc);
        for (name, value) in entries {
            pairs.insert(name, value)?;
        }
        Ok(pairs)
    }

    /// Gives the name this, in place of what it has; where there is no memory, nothing changes.
    pub fn insert(&mut self, name: Name, value: T) -> Result<(), NoMemory>
        ensures ok { OnOk result (self.new ≡ insert_entry (slice_cmp nat_cmp) self.old name value) }
        ensures err { OnErr result (self.new ≡ self.old) }
    {
        let value = value.into_shared(self.alloc)?;
        match &mut self.shared {
            Some(entries) => insert(entries, name, value),
            None => {
                let mut entries = NameMap::new(self.alloc);
                entries.insert(name, value)?;
                self.shared = Some(Shared::new(self.alloc, entries)?);
                Ok(())
            }
        }
    }

    /// Puts a value in the place of what a name has, and gives that back; where the name isn't
    /// there, the value comes back. Where there is no memory, nothing changes.
    pub fn replace(&mut self, name: &Name, value: T) -> Result<T, NoMemory>
        ensures had { IfOk result (λ held. held ≡ unwrap_or (value_at name.now self.old) value) }

        // An insert at the name makes the same of it as of what was there before.
        ensures inserted { (next : T) → insert_entry (slice_cmp nat_cmp) self.new name.now next
            ≡ insert_entry (slice_cmp nat_cmp) self.old name.now next }
        ensures left { OnOk result (self.new ≡ changed_at name.now (λ _. value) self.old) }
        ensures err { OnErr result (self.new ≡ self.old) }
    {
        match &mut self.shared {
            Some(entries) => Ok(entries.make_mut()?.replace(name, value)),
            None => Ok(value),
        }
    }

    /// Takes a name away with what it has, if it is there. Where there is no memory, nothing
    /// changes.
    pub fn take(&mut self, name: &Name) -> Result<Option<T>, NoMemory>
        ensures had { IfOk result (λ held. held ≡ value_at name.now self.old) }
        ensures left { OnOk result (self.new ≡ without_name name.now self.old) }

        // An insert at the name makes the same of what is left as of what was there before.
        ensures inserted { (next : T) → insert_entry (slice_cmp nat_cmp) self.new name.now next
            ≡ insert_entry (slice_cmp nat_cmp) self.old name.now next }
        ensures err { OnErr result (self.new ≡ self.old) }
    {
        match &mut self.shared {
            Some(entries) => Ok(entries.make_mut()?.take(name)),
            None => Ok(None),
        }
    }
}

fn insert<T: NamedValue + Drop>(
    entries: &mut Shared<NameMap<T>>,
    name: Name,
    value: T,
) -> Result<(), NoMemory>
    ensures ok { OnOk result
        (entries.new ≡ insert_entry (slice_cmp nat_cmp) entries.old name value) }
    ensures err { OnErr result (entries.new ≡ entries.old) }
{
    entries.make_mut()?.insert(name, value)
}

impl<T: Drop> Copied for Named<T> {
    fn copy(&self) -> Result<Named<T>, NoMemory> {
        match &self.shared {
            Some(entries) => Ok(Named {
                alloc: self.alloc,
                shared: Some(entries.copy()?),
                none: NameMap::new(self.alloc),
            }),
            None => Ok(Named::new(self.alloc)),
        }
    }
}

impl<T: Drop> Clone for Named<T> {
    ghost use Rattle.std.specs.Prelude.{◌≡◌};

    ghost is_clone = { λ a b. b ≡ a };

    fn clone(&self) -> Result<Named<T>, AllocError> {
        match self.copy() {
            Ok(copied) => Ok(copied),
            Err(NoMemory) => Err(AllocError),
        }
    }
}
