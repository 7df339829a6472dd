ghost use Rattle.std.specs.Prelude.{◌≡◌, ◌==◌, [], length, OnOk, OnErr, option_copied, unwrap_or};
ghost use Rattle.std.specs.Ordering.{nat_cmp};
ghost use Rattle.std.specs.BTreeMap.{insert_entry};
ghost use Rattle.std.specs.Cmp.Lexicographic.{slice_cmp};
ghost use Rattle.msb_values.specs.Pairs.{value_at, AreRising, changed_at, without_name};

use crate::{EqualClones, Name, NoMemory};
use std::alloc::{AllocError, Global};
use std::collections::{BTreeMap, btree_map};
use std::marker::Model;
use std::mem;

/// What each of some names has, which is not shared.
pub(crate) struct NameMap<T> {
    pub(crate) map: BTreeMap<Name, T>,
}

// A drop that is written out is proved here alone.
impl<T: Drop> Drop for NameMap<T> {
    fn drop(self) {
        let NameMap { map: _ } = self;
    }
}

impl<T> Model for NameMap<T> {
    ghost use Rattle.std.specs.Prelude.{ℕ, List};

    ghost Value = { List (List ℕ × T) };

    ghost view = { λ p. p.map.entries };
}

impl<T> NameMap<T> {
    pub(crate) fn new(alloc: Global) -> NameMap<T>
        ensures { result ≡ [] }
    {
        NameMap {
            map: BTreeMap::new(alloc),
        }
    }

    pub(crate) fn len(&self) -> usize
        ensures { result ≡ length self.now }
    {
        self.map.len()
    }

    /// The names are distinct, each above the one before it in byte order.
    pub(crate) fn names_rise(&self)
        ensures { AreRising self.now }
    {
        let _ = self.map.len();
    }

    /// What a name has, if it is there.
    pub(crate) fn get(&self, name: &Name) -> Option<&T>
        ensures { option_copied result ≡ value_at name.now self.now }
    {
        self.map.get(name)
    }

    /// The names with what they have, in byte order of the names.
    pub(crate) fn iter(&self) -> btree_map::Iter<'_, Name, T>
        ensures { result ≡ self.now }
    {
        self.map.iter()
    }
}

impl<T: Drop> NameMap<T> {
    /// Gives the name this, in place of what it has; where there is no memory, nothing changes.
    pub(crate) fn insert(&mut self, name: Name, value: T) -> Result<(), NoMemory>
        ensures ok { OnOk result (self.new ≡ insert_entry (slice_cmp nat_cmp) self.old name value) }
        ensures err { OnErr result (self.new ≡ self.old) }
    {
        self.map.insert(name, value)?;
        Ok(())
    }

    /// Puts a value in the place of what a name has, and gives that back; where the name isn't
    /// there, the value comes back.
    pub(crate) fn replace(&mut self, name: &Name, value: T) -> T
        ensures had { result ≡ unwrap_or (value_at name.now self.old) value }

        // An insert at the name makes the same of it as of what was there before.
        ensures inserted { (next : T) → insert_entry (slice_cmp nat_cmp) self.new name.now next
            ≡ insert_entry (slice_cmp nat_cmp) self.old name.now next }
        ensures left { self.new ≡ changed_at name.now (λ _. value) self.old }
    {
        match self.map.get_mut(name) {
            Some(held) => mem::replace(held, value),
            None => value,
        }
    }

    /// Takes a name away with what it has, if it is there.
    pub(crate) fn take(&mut self, name: &Name) -> Option<T>
        ensures had { result ≡ value_at name.now self.old }
        ensures left { self.new ≡ without_name name.now self.old }

        // An insert at the name makes the same of what is left as of what was there before.
        ensures inserted { (next : T) → insert_entry (slice_cmp nat_cmp) self.new name.now next
            ≡ insert_entry (slice_cmp nat_cmp) self.old name.now next }
    {
        self.names_rise();
        self.map.remove(name)
    }
}

impl<T: EqualClones> Clone for NameMap<T> {
    ghost use Rattle.std.specs.Prelude.{◌≡◌};

    ghost is_clone = { λ a b. b ≡ a };

    fn clone(&self) -> Result<NameMap<T>, AllocError> {
        Ok(NameMap {
            map: self.map.clone()?,
        })
    }
}
