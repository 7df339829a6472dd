//! What words and files come to: what is left to do of the words once the project is evaluated, and
//! what comes of it.
//!
//! Which outcomes there are stands in one definition, `IsOutcomeOf` in `specs/Outcomes.antt`; which
//! tools a build calls, in `specs/Calls.antt`; what a trial prints, in `specs/Trials.antt`.
#![tactic(auto)]

mod alone;
mod checked;
mod on_nodes;
mod outcome;
mod trial;
mod work;
mod world_with_instances;

pub use on_nodes::contexts_of;
pub use outcome::{outcome_alone, outcome_on};
pub use trial::{trial_alone, trial_on};
pub use work::{Work, work_within};
pub use world_with_instances::WorldWithInstances;
