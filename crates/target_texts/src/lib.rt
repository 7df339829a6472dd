//! What the texts of a target and of its task elements denote: the buckets and the parameters of a
//! task, what comes of one that fails, what its Outputs change, also where it is not called, the
//! lists of Inputs and Outputs, and the items that the target returns. Nothing here knows how a run
//! goes on. (Target element; Task element; Output element; How to build incrementally.)
#![tactic(auto)]

mod bucket;
mod inferred;
mod lists;
mod on_error;
mod outputs;
mod parameters;
mod returned;
mod target;

pub use bucket::without_lists;
pub use inferred::{push_inferred, task_of};
pub use lists::Lists;
pub use on_error::OnError;
pub use outputs::push_outputs;
pub use parameters::TaskElement;
pub use returned::returns_of;
pub use target::TargetElement;
