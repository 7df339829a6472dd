//! Builds on several nodes: each takes the scheduler's core in turns, by a board, and advances the
//! walks of requests while others have it. (MSBuild documentation: "Build multiple projects in
//! parallel with MSBuild", for the nodes that do so.)
//!
//! A node takes the core, brings back the walk that it has advanced, takes the next request that
//! is ready, and gives the core back before it advances that request's walk. `specs/Turns.antt`
//! says what it knows of the walk meanwhile.
//!
//! The first node works alone until a second request is ready. Each later one starts the next
//! before it advances its first walk, so that at any time one node at most is started for which
//! there was no work yet. No more nodes are started than there are processors: the others run one
//! after another once these have left, so that where these retired for want of memory, they go on.
#![tactic(auto)]

mod core_turns;
mod nodes;
mod shared;
mod turn;

pub use nodes::build_with;
