//! What scorers of clauses have together, fed to a sink or counted.
#![tactic(auto)]

mod joint_counts;
mod joint_walks;

pub use joint_counts::count_matching;
pub use joint_walks::feed_matching;
