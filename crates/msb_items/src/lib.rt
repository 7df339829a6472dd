//! The second and the third pass of the evaluation of a project, which are item definitions and
//! items, and the groups of properties and items in targets. (How MSBuild builds projects,
//! evaluation phase; MSBuild items; Item definitions; Target element.)
#![tactic(auto)]

mod applying;
mod batched;
mod changes;
mod definitions;
mod entries;
mod files;
mod group;
mod item_names;
mod items;
mod metadata;
mod pairs;
mod project_files;
mod repeats;
mod sets;
mod target_groups;
mod target_items;
mod target_properties;
mod transfer;
mod truths;
mod updates;

pub use batched::{element_buckets, own_buckets};
pub use definitions::definition_pass;
pub use items::item_pass;
pub use repeats::KeyedItems;
pub use target_groups::{change_by_group, in_target};
pub use truths::truth_or;
