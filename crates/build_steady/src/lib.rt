//! Whether a world is steady: whether every body of a run makes one record, wherever the meaning
//! makes it. It is what a build on several nodes takes for granted. (MSBuild task; Building
//! projects in parallel.)
//!
//! `specs/Order.antt` says what comes in the order of demand, and `specs/Verdicts.antt` what a
//! check says of it. The check knows no project: it goes along the walks that a build goes along,
//! on one node, and makes each run wherever its journal lacks it.
#![tactic(auto)]

mod checked;
mod checking;
mod findings;
mod laws;
mod recalls;
mod verdict;

pub use checked::check;
pub use checking::check_walk;
pub use laws::steady_is_whole_and_steady;
pub use recalls::Recalls;
pub use verdict::Verdict;
