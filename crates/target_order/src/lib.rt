//! The order in which one request visits the targets of a project. (MSBuild documentation: "Target
//! build order".)
//!
//! [`OrderWalk`] asks for conditions, lists and bodies one by one, is answered, and goes on. Its
//! asks are those of the definition `order` in `specs/Visit.antt`, along every list of answers.
#![tactic(auto)]

mod array;
mod asks;
mod cursor;
mod hooks;
mod numbers;
mod open_visits;
mod row;
mod search;
mod shared;
mod steps;
mod table;
mod visits;
mod walk;

pub use asks::{OrderAnswer, OrderAsk};
pub use row::TargetRow;
pub use walk::OrderWalk;
