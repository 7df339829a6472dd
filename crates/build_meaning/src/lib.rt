//! What a build of requests and runs means, and what every history of a scheduler has to do with
//! it. (MSBuild task; Target build order; Building projects in parallel.)
//!
//! `specs/` has the definitions. The functions here are the laws that are proved of them: they run
//! no code, and their contracts are what is proved. The laws speak of any world, that is of any
//! root request, tools and walks of requests.
#![tactic(auto)]

mod event;
mod histories;
mod meanings;
mod plain;
mod steady;
mod worked;

pub use event::{ClaimKind, Event};
pub use histories::{
    assigned_stays, cycles_are_shown, entries_are_new, every_history_goes_on,
    every_history_is_orderly, every_table_is_consistent, never_stuck, records_stay,
    retire_keeps_runs,
};
pub use meanings::{
    building_is_replaying, derivation_is_the_meaning, replaying_is_merging, single_is_steady,
};
pub use plain::plain_requests_give_alike;
pub use steady::{
    any_order_agrees, done_is_complete, ends_are_determined, every_request_stands,
    nothing_is_refused,
};
pub use worked::{
    order_tells_in_an_unsteady_world, three_projects_in_a_circle, two_calls_want_one_run,
};
