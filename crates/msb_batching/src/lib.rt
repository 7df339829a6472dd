//! The buckets of an element in a target: its texts are expanded once for each tuple of metadata
//! that its items have.
//!
//! What the buckets of an element are stands in `specs/Buckets.antt`, above what its texts speak
//! of, in `specs/References.antt`, and the values of its items, in `specs/Values.antt`.
#![tactic(auto)]

mod batching;
mod faults;
mod filling;
mod mentions;
mod numbered;
mod reference;
mod rows;
mod tuples;

pub use batching::buckets;
pub use faults::BatchFault;
