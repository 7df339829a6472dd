use crate::{Placed, UsedTargets};
use msb_values::{List, Name, Scope, Text};
use target_order::TargetRow;

/// The Target element that is used of all those with its name: the last one. (MSBuild targets.)
pub struct UsedTarget {
    pub name: Name,
    pub at: Placed,
    /// Whether any Target element of its file has Returns, so that Outputs are not returned
    /// instead.
    pub file_has_returns: bool,
}

// A drop that is written out is proved here alone.
impl Drop for UsedTarget {
    fn drop(self) {
        let UsedTarget {
            name: _,
            at: _,
            file_has_returns: _,
        } = self;
    }
}

/// An evaluated project. (How MSBuild builds projects, evaluation phase.)
pub struct Instance {
    pub scope: Scope,
    /// The targets in the order of the first element of each name, with those that they hook on.
    pub rows: List<TargetRow>,
    /// The element that is used, for each row.
    pub targets: UsedTargets,
    pub initial: List<Name>,
    /// The default targets: without DefaultTargets the first target.
    pub default: List<Name>,
    /// The path of each import that was ignored, since its file was laid out before.
    pub duplicates: List<Text>,
}

// A drop that is written out is proved here alone.
impl Drop for Instance {
    fn drop(self) {
        let Instance {
            scope: _,
            rows: _,
            targets: _,
            initial: _,
            default: _,
            duplicates: _,
        } = self;
    }
}
