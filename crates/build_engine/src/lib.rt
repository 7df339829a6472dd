//! A build over any walks, from the walk of its root request to what it prints and writes, on one
//! node and on several. It knows no project. (MSBuild command-line reference, -maxCpuCount.)
#![tactic(auto)]

mod alone;
mod nodes;

pub use alone::build_on_one;
pub use nodes::build_on_many;
