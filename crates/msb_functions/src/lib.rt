//! Property functions: what `$(Name.Function(..))` and `$([MSBuild]::Function(..))` call ("Property
//! functions" in the MSBuild documentation).
//!
//! `call` gives a function's value. What each function gives stands in `specs/Functions.antt`, a
//! line for each.
#![tactic(auto)]

mod calls;
mod faults;
mod names;
mod numbers;
mod sums;
mod text_calls;
mod texts;
mod word;

pub use calls::call;
pub use faults::{FuncFault, NoRoom};
pub use texts::Texts;
pub use word::Word;
