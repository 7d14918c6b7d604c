//! Queries: their trees, how they are read, which of them are refused, their weights, and which terms they read.
#![tactic(auto)]

mod accepted_queries;
mod asked_weights;
pub mod count_laws;
mod counts;
mod query;
mod query_weights;

pub use accepted_queries::accept_query;
pub use query::Query;
pub use query_checks::{
    AllQuery, AnyQuery, BooleanQuery, BoostQuery, ConstScoreQuery, DisjunctionMaxQuery, EmptyQuery,
    Occur, PhrasePrefixQuery, PhraseQuery, QueryClone, QueryTree, Statistics, TermQuery,
    a_node_is_refused_by_its_first_fault, a_query_is_refused_by_its_first_node, are_phrase_terms,
    check_query, depths_are_tested_first, read_query,
};
pub use query_weights::SpecializedWeight;
