//! The walk of one request of a build: the order of its targets, answered by the evaluated project,
//! and the runs that it wants. (Target build order; MSBuild task.)
//!
//! What a request does is one tree, `walk_of` in `specs/Worlds.antt`.
#![tactic(auto)]

mod after_run;
mod beginning;
mod context;
mod former;
mod order;
mod plain;
mod replayed;
mod reply;
mod request;
mod run;
mod shared;
mod snapshots;
mod stage;
mod walk;

pub use plain::{conditions_see_files_by_exists, plain_projects_ask_alike};
pub use walk::{NodeContext, Walk, WorldRef, root_key};
