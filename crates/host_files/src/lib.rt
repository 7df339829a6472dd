//! The store of a real folder, and standard output as a sink. What they reach is trusted: no
//! contract says what a folder or an output holds. Each counts its own faults, and tells nothing.
#![tactic(auto)]

mod folder;
mod held;
mod listed;
mod listing;
mod output;
mod place;
mod reading;
mod removing;
mod sharing;
#[cfg(test)]
mod tests;
mod writing;

pub use folder::DirStore;
pub use output::OutSink;
