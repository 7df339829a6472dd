ghost use Rattle.std.specs.Prelude.{◌≡◌, IfOk};
ghost use Rattle.once_table.specs.Looked.{AllFit, IfMade};

use crate::Fits;
use indexmap::IndexMap;
use msb_values::{Copied, NoMemory};
use std::alloc::Global;
use std::collections::HashSet;
use std::hash::Hash;
use std::marker::PhantomData;
use std::snapshot::Snapshot;
use turn_board::Histories;

/// What a look for the value of a key finds.
#[derive(Drop)]
pub(crate) enum Look<V> {
    Made(V),
    /// Another thread makes it just now.
    Making,
    /// The thread that looks makes it.
    Missing,
}

/// The values that are made, and the keys whose values are being made.
pub(crate) struct Values<K: Eq + Hash, V, W, F: Fits<K, V, W>> {
    made: IndexMap<K, V>,
    making: HashSet<K>,
    pub world: Snapshot<W>,
    fits: PhantomData<F>,
    ghost fit: { ∥ AllFit (F.fits world.value) made.entries ∥₁ },
}

// A drop that is written out is proved here alone.
impl<K: Eq + Hash + Drop, V: Drop, W, F: Fits<K, V, W>> Drop for Values<K, V, W, F> {
    fn drop(self) {
        let Values {
            made: _,
            making: _,
            world: _,
            fits: _,
        } = self;
    }
}

impl<K: Eq + Hash + Copied + Drop, V: Copied + Drop, W, F: Fits<K, V, W>> Values<K, V, W, F> {
    pub(crate) fn new(alloc: Global, world: &W) -> Values<K, V, W, F>
        ensures { result.world.value ≡ world.now }
    {
        Values {
            made: IndexMap::new(alloc),
            making: HashSet::new(alloc),
            world: Snapshot::of(world),
            fits: PhantomData,
        }
    }

    /// Looks for the value of a key. Where it is missing, it is being made from now on.
    pub(crate) fn look(&mut self, key: &K) -> Result<Look<V>, NoMemory>
        ensures fits { IfOk result
            (IfMade (λ value. ∥ F.fits self.old.world.value key.now value ∥₁)) }
        ensures world { self.new.world ≡ self.old.world }
    {
        if let Some(value) = self.made.get(key) {
            return Ok(Look::Made(value.copy()?));
        }
        if self.making.contains(key) {
            return Ok(Look::Making);
        }
        self.making.insert(key.copy()?)?;
        Ok(Look::Missing)
    }

    /// Puts the value of a key, which is being made no longer.
    pub(crate) fn put(&mut self, key: &K, value: &V) -> Result<(), NoMemory>
        requires { F.fits self.old.world.value key.now value.now }
        ensures { self.new.world ≡ self.old.world }
    {
        self.give_up(key);
        self.made.insert(key.copy()?, value.copy()?)?;
        Ok(())
    }

    /// The value of a key is being made no longer.
    pub(crate) fn give_up(&mut self, key: &K)
        ensures { self.new.world ≡ self.old.world }
    {
        self.making.remove(key);
    }
}

impl<K: Eq + Hash + Drop, V: Drop, W, F: Fits<K, V, W>> Histories for Values<K, V, W, F> {
    ghost use Rattle.std.specs.Prelude.{[]};

    type World = W;

    type Event = ();

    ghost world = { λ values. values.world.value };

    ghost history = { λ values. [] };

    fn events(&self) -> u64 {
        0
    }
}
