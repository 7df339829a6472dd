use msb_values::InstanceKey;
use result_cache::{RecordRef, RunId};

/// What a check says of a world. (MSBuild task; Building projects in parallel.)
pub enum Verdict {
    /// The world is whole and steady, and its meaning makes so many bodies.
    Steady(u32),
    /// A body of this run ends with another record than the first one: the record of the first, and
    /// that other one.
    Differs(RunId, RecordRef, RecordRef),
    /// This run is wanted in its own body.
    Circular(RunId),
    /// A request for this instance is nested too deep.
    TooDeep(InstanceKey),
    /// With this instance there are too many.
    TooMany(InstanceKey),
    /// So many bodies have begun, and one more would.
    Spent(u32),
}

// A drop that is written out is proved here alone.
impl Drop for Verdict {
    fn drop(self) {
        match self {
            Verdict::Steady(_) => {}
            Verdict::Differs(_, _, _) => {}
            Verdict::Circular(_) => {}
            Verdict::TooDeep(_) => {}
            Verdict::TooMany(_) => {}
            Verdict::Spent(_) => {}
        }
    }
}
