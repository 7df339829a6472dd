//! What the program prints, writes and removes once the end of a build is told, for any walker, and
//! how it ends. (MSBuild command-line reference.)
//!
//! `specs/` says what an outcome is by the legal history that leads to it. The laws run no code:
//! their contracts are what is proved.
#![tactic(auto)]

mod counted;
mod outcome;
mod replay;
mod steady;

pub use outcome::Outcome;
pub use steady::{outcome_is_the_meanings, outcomes_agree};
