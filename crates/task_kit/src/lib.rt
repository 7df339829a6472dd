//! The built-in tasks: what each does with what it is handed.
//!
//! What they do is one definition, `answer` in `specs/Tasks.antt`, with a row a task. The checks of
//! a task come first, and the first that fails is its failure; then it works, file by file, and
//! what it did before a failure stays.
#![tactic(auto)]

mod copies;
mod excluded;
mod foreign;
mod included;
mod lines;
mod messages;
mod paths;
mod patterns;
mod progress;
mod read;
mod removed;
mod tasks;

pub use foreign::{foreign_input, foreign_output};
pub use tasks::call;
