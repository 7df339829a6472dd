//! Sets of projects that call each other, made from a seed: for trials of the engine itself.
//!
//! Which projects a project calls is drawn by a generator of this engine's own; the set of a seed
//! and a size stands in `specs/Sets.antt`.
#![tactic(auto)]

mod draws;
mod elements;
mod projects;
mod sets;

pub use sets::make;
