//! Tools for tests, by which a test can tell whether two nodes work at the same time.
#![tactic(auto)]

mod gate;

pub use gate::Gate;
