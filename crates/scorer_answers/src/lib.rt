//! What is done with a scorer that has what its query answers in a segment: counts, sinks, explanations.
#![tactic(auto)]

pub mod answer_laws;
mod counts;
mod explanations;
mod scorer_walks;

pub use counts::{count, count_all, count_term};
pub use explanations::{explain, seek_match};
pub use scorer_walks::{for_each, for_each_no_score, for_each_pruning};
