//! What a task is handed and what it answers, and tools: the tasks that are not built in.
//!
//! A tool is its function of a task's name and input, which belongs to the tools' type. Contracts
//! over [`CountedTools`] see the list of the calls that were made besides.
#![tactic(auto)]

mod escaping;
mod failures;
mod params;
mod rows;
mod tools;

pub use escaping::{handed_items, taken_items};
pub use failures::Failure;
pub use params::{
    bad_parameter, check_known, items_of, needed_items, needed_text, pair_of, text_of, truth_at,
};
pub use rows::takes_list;
pub use tools::{
    Counted, CountedTools, FileIn, NoTools, Param, TaskOutput, ToolAnswer, ToolInput, Tools,
};
