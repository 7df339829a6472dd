//! Project files as trees of elements.
//!
//! A contract sees an [`Element`] as plain data: its place, its name, its attributes, its text and
//! its children.
#![tactic(auto)]

mod attributes;
mod clashes;
mod copying;
mod element;
mod errors;
mod kind;
mod members;
mod own;
mod parts;
mod place;
mod reading;

pub use element::{Element, Project};
pub use errors::ReadFault;
pub use place::Place;
pub use reading::read_project;
