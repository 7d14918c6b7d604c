//! The scorers of any query in a segment, from what makes the scorers of queries that hold no other.
#![tactic(auto)]

mod leaf_weights;
mod reader_scorers;
mod scorer_walks;
mod terms_alone;

pub use any_scorer::AnyScorer;
pub use leaf_weights::LeafWeights;
pub use reader_scorers::{ReaderScorers, ScorerBy};
pub use terms_alone::{are_terms, into_terms};
