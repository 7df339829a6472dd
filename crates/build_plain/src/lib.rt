//! Builds on one node: the least request that is ready goes on until it asks for what others have
//! to do first. (MSBuild command-line reference, -maxCpuCount.)
#![tactic(auto)]

mod alone;

pub use alone::build_alone;
