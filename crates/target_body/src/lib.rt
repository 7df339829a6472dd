//! The run of a target: its buckets, what is decided of each, its children, and what it returns.
//!
//! What a run does is one definition, `body` in `specs/Bodies.antt`, a tree of what it does to
//! files, which tools it uses and which requests it calls. [`Body`] is the machine that goes along
//! this tree and stops at each call. (Target element; MSBuild batching; Incremental builds.)
#![tactic(auto)]

mod acting;
mod body;
mod calling;
mod children;
mod frames;
mod later;
mod pieces;
mod run_context;
mod running;
mod scopes;
mod state;
mod steps;
mod tasks;

pub use body::{Body, BodyAsk};
