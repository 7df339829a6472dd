/// How a build decides what to run. (How to build incrementally.)
#[derive(Clone, Copy, Debug, PartialEq, Eq)]
pub enum Mode {
    /// Targets whose outputs are new enough are skipped.
    Incremental,
    /// Nothing is skipped for being new enough.
    Clean,
}
