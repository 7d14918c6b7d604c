//! Query trees: read from JSON, and which of them are refused, and by what.
#![tactic(auto)]

mod bounds;
mod checks;
mod json_booleans;
mod json_phrases;
mod json_queries;
mod node_tests;
mod query_forms;
mod refusal_laws;
mod term_queries;
mod term_tests;

pub use checks::check_query;
pub use json_queries::read_query;
pub use query_trees::{
    AllQuery, AnyQuery, BooleanQuery, BoostQuery, ConstScoreQuery, DisjunctionMaxQuery, EmptyQuery,
    Occur, PhrasePrefixQuery, PhraseQuery, QueryClone, QueryTree, TermQuery, are_phrase_terms,
};
pub use refusal_laws::{
    a_node_is_refused_by_its_first_fault, a_query_is_refused_by_its_first_node,
    depths_are_tested_first,
};
pub use settings::Statistics;
