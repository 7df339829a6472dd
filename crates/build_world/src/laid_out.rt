ghost use Rattle.std.specs.Prelude.{◌≡◌};

use msb_elements::Element;
use msb_values::{List, Name, Pairs, Text};

/// An element of a project, with the path of the file that holds it.
pub struct Placed {
    pub file: Text,
    pub element: Element,
}

// A drop that is written out is proved here alone.
impl Drop for Placed {
    fn drop(self) {
        let Placed {
            file: _,
            element: _,
        } = self;
    }
}

/// A project whose imports and Choose elements are put in their places. (How MSBuild builds
/// projects, evaluation phase.)
pub struct LaidOut {
    /// The Project element of each file, without its children, and behind it its groups and targets
    /// in order, those of an import in its place. The first is the root file's Project.
    pub elements: Vec<Placed>,
    /// The value of each property, of the global ones too.
    pub props: Pairs,
    /// The path of each import that was ignored, since its file was laid out before.
    pub duplicates: List<Text>,
    /// The targets of the InitialTargets of all files.
    pub initial: List<Name>,
    /// The targets of the first DefaultTargets, or none.
    pub default: List<Name>,
}

// A drop that is written out is proved here alone.
impl Drop for LaidOut {
    fn drop(self) {
        let LaidOut {
            elements: _,
            props: _,
            duplicates: _,
            initial: _,
            default: _,
        } = self;
    }
}

impl LaidOut {
    /// Its elements, its properties, the imports that were ignored, the initial targets and the
    /// default ones.
    pub fn parts(self) -> (Vec<Placed>, Pairs, List<Text>, List<Name>, List<Name>)
        ensures elements { result.0 ≡ self.elements }
        ensures props { result.1 ≡ self.props }
        ensures duplicates { result.2 ≡ self.duplicates }
        ensures initial { result.3 ≡ self.initial }
        ensures default { result.4 ≡ self.default }
    {
        let LaidOut {
            elements,
            props,
            duplicates,
            initial,
            default,
        } = self;
        (elements, props, duplicates, initial, default)
    }
}
