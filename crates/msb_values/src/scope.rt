ghost use Rattle.std.specs.Prelude.{◌≡◌};

use crate::{Defaults, Lists, Pairs};

/// What a text of a project sees: properties, items and metadata. (MSBuild properties; MSBuild
/// items; Item definitions.)
pub struct Scope {
    /// The global properties of the build.
    pub globals: Pairs,
    /// The value of each property, of the global ones too.
    pub props: Pairs,
    /// The items of each type.
    pub items: Lists,
    /// The metadata that items of each type have where they have none of their own.
    pub defaults: Defaults,
}

// A drop that is written out is proved here alone.
impl Drop for Scope {
    fn drop(self) {
        let Scope {
            globals: _,
            props: _,
            items: _,
            defaults: _,
        } = self;
    }
}

impl Scope {
    /// Its global properties, its properties, the items of each type, and the metadata that they
    /// have by default.
    pub fn parts(self) -> (Pairs, Pairs, Lists, Defaults)
        ensures globals { result.0 ≡ self.globals }
        ensures props { result.1 ≡ self.props }
        ensures items { result.2 ≡ self.items }
        ensures defaults { result.3 ≡ self.defaults }
    {
        let Scope {
            globals,
            props,
            items,
            defaults,
        } = self;
        (globals, props, items, defaults)
    }
}
