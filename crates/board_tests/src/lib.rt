//! Small callers of `turn_board`, and its tests: nodes that fill one list in turns, each in a
//! thread of its own.
#![tactic(auto)]

mod nodes;
#[cfg(test)]
mod tests;
mod turn_list;

pub use nodes::fill;
pub use turn_list::{Order, TurnList};
