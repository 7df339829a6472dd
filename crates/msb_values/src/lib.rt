//! Texts, names and lists, as every other crate holds them, and the plain data that is made of
//! them.
//!
//! A contract sees each of these as a list: a [`Text`] and a [`Text8`] as their bytes, a [`List`]
//! as its entries, a [`Name`] as the bytes of its key, and a [`Named`] as its names with what they
//! have.
#![tactic(auto)]

mod act;
mod apply;
mod cause;
mod change;
mod changed_items;
mod compared;
mod equal_clones;
mod errors;
mod escapes;
mod folded;
mod item;
mod items;
mod key;
mod list;
mod lists;
mod mode;
mod name;
mod name_map;
mod named;
mod named_compared;
mod note;
mod overlay;
mod put;
mod same;
mod scope;
mod shared;
mod text;
mod text8;
mod truth;

pub use act::Act;
pub use cause::Cause;
pub use change::Change;
pub use equal_clones::{EqualClones, NamedValue};
pub use errors::{NameFault, NoMemory};
pub use escapes::{escape, unescape};
pub use folded::Folded;
pub use item::Item;
pub use items::SharedItems;
pub use key::InstanceKey;
pub use list::{Copied, List};
pub use lists::{is_blank, split_list, trim};
pub use mode::Mode;
pub use name::{Name, bad_name, bad_target_name};
pub use named::{Defaults, Lists, Named, Pairs};
pub use note::Note;
pub use overlay::{put_all_missing, with_defaults};
pub use put::Put;
pub use same::same_text;
pub use scope::Scope;
pub use shared::Shared;
pub use text::Text;
pub use text8::Text8;
pub use truth::truth_of;
