//! What the journals of a history have to do with its table: they are got from it by replaying
//! runs. And which tools its runs have used. (MSBuild task; Target element.)
//!
//! The functions here are laws: they run no code, and their contracts are what is proved, of every
//! world and history.
#![tactic(auto)]

mod places;
mod repeated;
mod replayed;
mod told;
mod tools;

pub use places::{journals_are_meant, places_are_the_meanings};
pub use repeated::{calls_go_by_the_table, requests_end_by_the_table, what_the_table_tells_stays};
pub use replayed::{
    calls_are_replayed, requests_are_replayed, results_have_the_runs, root_is_replayed,
};
pub use told::closed_history_tells;
pub use tools::{runs_use_tools_once, tools_are_used_as_meant};
