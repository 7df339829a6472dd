//! Which file an import brings in. (Import element.)
#![tactic(auto)]

mod laid_out;
mod resolving;

pub use laid_out::LaidOut;
pub use resolving::{ImportFault, resolve};
