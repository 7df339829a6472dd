//! What a build is made of, as plain data: the world, the elements of a project laid out, and the
//! evaluated project.
//!
//! It also says how a fault of evaluation is told.
#![tactic(auto)]

mod element;
mod fault;
mod instance;
mod laid_out;
mod reading;
mod used_targets;
mod world;

pub use element::PlacedElement;
pub use fault::{ElementPlace, EvalFault, not_found_text};
pub use instance::{Instance, UsedTarget};
pub use laid_out::{LaidOut, Placed};
pub use reading::read_file;
pub use used_targets::UsedTargets;
pub use world::World;
