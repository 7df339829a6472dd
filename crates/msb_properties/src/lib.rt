//! The first pass of the evaluation of a project: its imports and Choose elements are put in their
//! places, and its properties get their values in order. (How MSBuild builds projects, evaluation
//! phase.)
//!
//! What a laid-out project is stands in `specs/Laid.antt`, above what properties are, in
//! `specs/Propertied.antt`.
#![tactic(auto)]

mod laying;
mod layout;
mod part;
mod pass;
mod properties;
mod setting;
mod taking;
mod targets;
mod trees;

pub use pass::property_pass;
pub use trees::ElementTrees;
