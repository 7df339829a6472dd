//! The scheduler of a build: its requests, the runs that they claim, and the records of those that
//! are finished. (MSBuild task; Building projects in parallel.)
#![tactic(auto)]

mod boxed;
mod children;
mod claim;
mod cycle;
mod dependents;
mod done;
mod drivers;
mod history;
mod instances;
mod kept;
mod opening;
mod preferred;
mod released;
mod repeat;
mod reply;
mod request;
mod request_set;
mod result;
mod retire;
mod scheduler;
mod slot;
mod walker;

pub use boxed::Boxed;
pub use build_meaning::{ClaimKind, Event};
pub use drivers::{are_of_others, go_on, learn_records};
pub use released::Released;
pub use reply::Reply;
pub use scheduler::Core;
pub use slot::End;
pub use walker::{Answer, Ask, Walker};
