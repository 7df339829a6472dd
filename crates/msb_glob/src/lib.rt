//! Patterns with wildcards, and the paths that they stand for, as MSBuild's items have them.
//!
//! `?` is one character, `*` any characters of one segment, and a segment `**` any number of whole
//! folders. Characters match exactly.
#![tactic(auto)]

mod entries;
mod errors;
mod expansion;
mod fixed;
mod item_names;
mod parts;
mod patterns;
mod pieces;
mod reading;
mod sorted;
mod splits;

pub use entries::{is_pattern, with_slashes};
pub use errors::GlobFault;
pub use expansion::{Match, expand, expand_in};
pub use item_names::ItemNames;
pub use patterns::Pattern;
pub use sorted::{HasPath, SortedPaths};
