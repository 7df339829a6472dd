use file_store::Tree;
use msb_values::{List, Mode, Name, Pairs, Text};

/// What a build is given. (MSBuild command-line reference.)
pub struct World {
    /// The files, as they stood at the start.
    pub tree: Tree,
    /// The path of the root project's file.
    pub root: Text,
    /// The global properties of the root.
    pub globals: Pairs,
    /// The targets that are named, or none, for the default targets.
    pub targets: List<Name>,
    pub mode: Mode,
}

// A drop that is written out is proved here alone.
impl Drop for World {
    fn drop(self) {
        let World {
            tree: _,
            root: _,
            globals: _,
            targets: _,
            mode: _,
        } = self;
    }
}
