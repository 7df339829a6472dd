//! Normal paths, and the parts of an item's identity, as MSBuild's well-known item metadata has
//! them.
//!
//! A normal path is one or more segments joined by `/`. A segment is not empty, not `.` or `..`,
//! and has no `/`, `\` or control character.
#![tactic(auto)]

mod errors;
mod folder;
mod names;
mod normal;
mod presence;
mod segments;
mod text;

pub use errors::{NoRoom, NormalFault, PathFault};
pub use folder::join;
pub use names::{Split, parts};
pub use normal::{is_normal, normal_path, normalize};
pub use presence::Present;
pub use text::Word;
