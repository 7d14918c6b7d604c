//! The best k hits of a search: a sink that keeps them through the segments of an index, one after the other.
#![tactic(auto)]

mod best_k;
pub mod best_laws;
mod insertion;
mod merged_hits;
mod ranked_hits;

pub use best_k::{BestK, Kept};
