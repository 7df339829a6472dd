//! Values by keys that threads share, of which each is made once, by the first thread that needs
//! it.
//!
//! A table has a world, which stays the same, and a relation says which value fits a key in it: so
//! what a thread finds fits, whichever thread has made it.
#![tactic(auto)]

mod fits;
mod table;
#[cfg(test)]
mod tests;
mod values;

pub use fits::Fits;
pub use table::OnceTable;
