//! Values whose clones equal them.

ghost use Rattle.std.specs.Prelude.{◌≡◌, IfOk};

use crate::name_map::NameMap;
use crate::{Copied, List, Named, NoMemory, SharedItems, Text};
use std::alloc::Global;

/// A value whose clones equal it.
pub trait EqualClones: Clone {
    ghost use Rattle.std.specs.Prelude.{◌≡◌};

    ghost clones_equal: { (a b : Self) → Self.is_clone a b → b ≡ a };
}

impl EqualClones for Text {
    ghost clones_equal = { λ a b same. same };
}

impl EqualClones for SharedItems {
    ghost clones_equal = { λ a b same. same };
}

impl<T: Copied + Drop> EqualClones for List<T> {
    ghost clones_equal = { λ a b same. same };
}

impl<T: Drop> EqualClones for Named<T> {
    ghost clones_equal = { λ a b same. same };
}

impl<T: EqualClones> EqualClones for NameMap<T> {
    ghost clones_equal = { λ a b same. same };
}

/// What a name can have: a value that its clones share.
pub trait NamedValue: EqualClones + Sized {
    /// An equal value, whose clones share what it holds.
    fn into_shared(self, alloc: Global) -> Result<Self, NoMemory>
        ensures { IfOk result (λ value. value ≡ self) };
}

impl NamedValue for Text {
    fn into_shared(self, alloc: Global) -> Result<Text, NoMemory> {
        self.share(alloc)
    }
}

impl NamedValue for SharedItems {
    fn into_shared(self, _: Global) -> Result<SharedItems, NoMemory> {
        Ok(self)
    }
}

impl<T: Drop> NamedValue for Named<T> {
    fn into_shared(self, _: Global) -> Result<Named<T>, NoMemory> {
        Ok(self)
    }
}
