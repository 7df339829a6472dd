//! What the texts of an element of a project see, and what they denote there: a Condition, a text,
//! a list of items or of targets. A fault is told at the element. (MSBuild conditions; MSBuild
//! properties; MSBuild items.)
#![tactic(auto)]

mod context;

pub use context::ElementContext;
