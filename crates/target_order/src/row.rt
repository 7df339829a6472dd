use msb_values::{List, Name};

/// A target of a project, with the targets that it hooks on. (MSBuild documentation: "Target
/// element".)
pub struct TargetRow {
    pub name: Name,
    /// The names of its BeforeTargets: it is visited ahead of their bodies.
    pub before: List<Name>,
    /// The names of its AfterTargets: it is visited after their bodies.
    pub after: List<Name>,
}

// A drop that is written out is proved here alone.
impl Drop for TargetRow {
    fn drop(self) {
        let TargetRow {
            name: _,
            before: _,
            after: _,
        } = self;
    }
}
