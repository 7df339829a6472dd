//! The top calls of the build engine: from the words of the command line to the files that are
//! written or removed and the bytes that are printed.
//!
//! The way in is [`run`]: words to options, the store's files to a tree, options and tree to what
//! is left to do, a build to its outcome, the outcome's acts to the store, and then its text to the
//! sink; [`run_alone`] does the same on one node. What holds of an invocation and its status is
//! gathered in `specs/Answered.antt`: what each status says is in `specs/Answers.antt`; what it
//! says where the world of a build is whole and steady, in `specs/Meanings.antt`, and where a build
//! may be trusted to skip what is up to date, in `specs/Clean.antt`; what such a build leaves to
//! the next one, in `specs/NextBuilds.antt`. Which outcomes there are stands in one definition,
//! `IsOutcomeOf` in the crate `msb_outcomes`; how one ends, in `specs/Endings.antt`; which tools a
//! build calls, and by which history, in `specs/Calls.antt`.
#![tactic(auto)]

mod top;

pub use top::{run, run_alone};
