//! Stores of files and sinks of bytes, those in memory, and the tree that is loaded from a store.
//!
//! These are the only ways to the outside. Each counts its own faults, so that a caller can tell a
//! failed call from a wrong answer. One in memory also tells what it holds; a real one, of the
//! crate `host_files`, tells nothing.
#![tactic(auto)]

mod committing;
mod limits;
mod loading;
mod memory;
mod memory_sink;
mod presence;
mod sink;
mod store;
mod tree;

pub use committing::{CommitFault, commit};
pub use limits::{MOST_BYTES, MOST_FILE_BYTES, MOST_FILES, check_limits};
pub use loading::{LoadFault, load};
pub use memory::MemStore;
pub use memory_sink::MemSink;
pub use presence::{is_ahead, is_below};
pub use sink::{Sink, SinkError};
pub use store::{Entry, Store, StoreError};
pub use tree::{File, Tree};
