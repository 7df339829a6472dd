//! Journals of what runs have done to files and of the runs that have ended, and files as a run
//! sees them: those of the tree, with what its journal has written over them and without what it
//! has removed. (MSBuild targets; MSBuild task; Delete task; Incremental builds.)
//!
//! A contract sees a [`Journal`] as the plain list of its entries, the newest first, and a
//! [`FileView`] as the files of its tree and that list.
#![tactic(auto)]

mod below;
mod committing;
mod entry;
mod hashed;
mod journal;
mod laws;
mod layer;
mod layers;
mod mark;
mod merging;
mod part;
mod replaying;
mod shared;
mod sorted;
mod view;

pub use entry::JView;
pub use journal::Journal;
pub use laws::{
    commits_leave_the_final_tree, entries_stay_once, merges_put_news_in_front, paths_have_content,
    replays_are_defined, replays_put_news_in_front,
};
pub use view::FileView;
