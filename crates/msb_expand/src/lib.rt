//! Expressions as texts and lists of items, in a scope of properties, items and metadata.
//!
//! What an expression denotes stands in `specs/Values.antt`: what stands in place of each part, and
//! the text or the list that comes of it from the left.
#![tactic(auto)]

mod batched;
mod calls;
mod entry;
mod expansion;
mod faults;
mod filled;
mod filters;
mod functions;
mod identities;
mod item_metadata;
mod joins;
mod kept;
mod lens;
mod limits;
mod lists;
mod open_entry;
mod own;
mod properties;
mod reading;
mod references;
mod seen;
mod steps;
mod texts;
mod tokens;
mod well_known;
mod whole;
mod written;

pub use entry::Entry;
pub use expansion::{entries, list, text};
pub use faults::{ExpandFault, expression_cause};
pub use item_metadata::{metadata, with_defaults};
pub use lens::{Bucket, Lens, Use};
pub use msb_reserved::{folder_of, is_reserved};
pub use well_known::{WellKnown, is_well_known};
pub use written::{expand_entries, expand_list, expand_names, expand_text};
