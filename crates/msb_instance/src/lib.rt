//! The whole evaluation of a project: four passes over one laid-out list of elements. (How MSBuild
//! builds projects, evaluation phase.)
//!
//! What an evaluated project is stands in `specs/Evaluated.antt`, above what its targets are, in
//! `specs/Targets.antt`. What instances are that are kept stands in `specs/Kept.antt`.
#![tactic(auto)]

mod evaluation;
mod instances;
mod names;
mod returns;
mod rows;
mod targets;

pub use evaluation::evaluate;
pub use instances::{InstanceRef, Instances};
