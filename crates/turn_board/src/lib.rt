//! A board for one value, the state, that threads share in turns. (MSBuild documentation: "Build
//! multiple projects in parallel with MSBuild", for the nodes that do so.)
//!
//! The state has a history, and each seat has seen a beginning of it: what one seat gives back, the
//! next seat that takes the state goes on from. The rule of the board is `BoardRule` in
//! `specs/Rule.antt`, what each step tells its seat stands in `specs/Steps.antt`.
#![tactic(auto)]

mod board;
mod histories;
mod rule;
mod seat;
mod view;

pub use board::{Board, Refused, Taken};
pub use histories::Histories;
pub use seat::Seat;
use view::View;
