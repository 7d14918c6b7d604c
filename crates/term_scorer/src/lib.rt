//! The scorer of a term, and explanations of scores.
#![tactic(auto)]

mod disposal;
mod explanation;
mod part_of_weight;
mod similarity;
mod term_scorer;

pub use explanation::Explanation;
pub use similarity::Similarity;
pub use term_scorer::TermScorer;
