//! The words of the command line: an action, a project and options.
//!
//! What the words ask for stands in `specs/Options.antt`, above how words are cut into options and
//! others, in `specs/Given.antt`, and what a value may be, in `specs/Values.antt`.
#![tactic(auto)]

mod entries;
mod faults;
mod given;
mod globals;
mod grammar;
mod numbers;
mod options;
mod targets;

pub use faults::WordFault;
pub use options::{Action, Options, read_words};
