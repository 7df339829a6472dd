//! The properties that the engine itself sets, their names and their values ("MSBuild reserved and
//! well-known properties" in the MSBuild documentation), and the parts of paths that they have.
#![tactic(auto)]

mod parts;
mod reserved;

pub use parts::{extension, filename, folder_of, from_root, relative_dir};
pub use reserved::{Reserved, is_reserved};
