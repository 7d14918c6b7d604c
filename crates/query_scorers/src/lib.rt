//! Scorers of queries in a segment: that of each query by those of the queries that it holds.
#![tactic(auto)]

mod all_query;
mod boolean_query;
mod disjunction_max_query;
mod segment_scorers;
mod trees;

pub use all_query::all_scorer;
pub use boolean_query::clauses_scorer;
pub use disjunction_max_query::best_scorer;
pub use segment_scorers::SegmentScorers;
pub use trees::{
    boolean_scorer, boosted_scorer, constant_scorer, max_scorer, scorer_of, scorers_asked,
    scorers_of,
};
