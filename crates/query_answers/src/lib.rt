//! What a query that isn't refused answers in a segment: its scorer, its count, its documents with their scores.
#![tactic(auto)]

mod counts;
mod explanations;
mod query_walks;

pub use counts::count;
pub use explanations::explain;
pub use query_walks::{for_each, for_each_no_score, for_each_pruning};
