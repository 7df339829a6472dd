//! Conditions: whether an element of a project file counts. (MSBuild conditions.)
//!
//! `parse` reads a condition, and `holds` says whether it is true in a scope and a view of files.
#![tactic(auto)]

mod comparing;
mod condition;
mod extents;
mod faults;
mod functions;
mod groups;
mod numbers;
mod operands;
mod parsing;
mod texts;
mod tokens;
mod truth;
mod values;
mod words;
mod written;

pub use condition::{Comparison, Cond, Function, Operand};
pub use faults::CondFault;
pub use parsing::parse;
pub use truth::holds;
pub use written::condition_holds;
