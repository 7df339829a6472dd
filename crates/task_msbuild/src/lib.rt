//! The MSBuild task: which requests it calls, in which order, and what it gives when their results
//! have come.
//!
//! What it is to do stands in `specs/Plans.antt`, above its parameters, in `specs/Parameters.antt`,
//! and its calls, in `specs/Calls.antt`; what it gives stands in `specs/Gathered.antt`. Whoever
//! makes the calls asks [`Plan::next`] which are next. (MSBuild task.)
#![tactic(auto)]

mod calls;
mod gathering;
mod name;
mod outputs;
mod parameters;
mod planning;
mod plans;
mod project;
mod properties;

pub use gathering::{gather, gather_without_outputs};
pub use planning::plan;
pub use plans::Plan;
