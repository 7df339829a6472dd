//! What is printed of a build and of an evaluated project, line by line.
//!
//! The texts stand in `specs/`: `shown_text` shows a build; `circular_text`, `too_deep_text` and
//! `too_many_text` show one that was refused; `eval_text` shows an evaluated project,
//! `targets_text` its targets; `specs/Checked.antt` has those of a check.
#![tactic(auto)]

mod build;
mod checked;
mod end;
mod eval;
mod lines;
mod refused;
mod run;
mod targets;

pub use build::show_build;
pub use checked::{
    show_circular_run, show_crowding_instance, show_deep_instance, show_differs, show_spent,
    show_steady,
};
pub use eval::show_eval;
pub use refused::{show_circular, show_too_deep, show_too_many};
pub use targets::show_targets;
