//! Texts of a project file, as expressions: plain text and the references `$(..)`, `%(..)` and
//! `@(..)`.
//!
//! `parse` reads a text, and `Expr::text` writes an expression without the spaces that the grammar
//! allows.
#![tactic(auto)]

mod calls;
mod expression;
mod faults;
mod list;
mod loose;
mod names;
mod parsing;
mod pieces;
mod references;
mod sorts;
mod starts;
mod steps;
mod word;
mod writing;

pub use expression::{Args, Call, Calls, Expr, Part, Parts, Piece, Pieces, Step, Steps};
pub use faults::{ExprFault, NoRoom};
pub use list::List;
pub use parsing::parse;
pub use word::Word;
