//! Whether a bucket of a target is up to date, runs whole or runs in part, and what its tasks'
//! outputs are where it is not run. (How to build incrementally.)
//!
//! What is decided stands in `specs/Decisions.antt`, above when a pair of files is out of date, in
//! `specs/Ages.antt`. Which targets take their items one by one stands in `specs/Shapes.antt`.
#![tactic(auto)]

mod ages;
mod decision;
mod inference;
mod shape;

pub use ages::pair_is_old;
pub use decision::{Choice, decide};
pub use inference::infer;
pub use shape::item_type;
