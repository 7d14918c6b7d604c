//! Query trees: how they are made, copied and read.
#![tactic(auto)]

mod all_query;
mod any_query;
mod boolean_query;
mod boost_query;
mod const_score_query;
mod copies;
mod disjunction_max_query;
mod disposal;
mod empty_query;
mod node_walks;
mod occur;
mod phrase_prefix_query;
mod phrase_query;
mod phrase_terms;
mod query_display;
mod query_terms;
mod query_traits;
mod term_query;

pub use all_query::AllQuery;
pub use any_query::AnyQuery;
pub use boolean_query::{BooleanQuery, with_occur};
pub use boost_query::BoostQuery;
pub use const_score_query::ConstScoreQuery;
pub use disjunction_max_query::DisjunctionMaxQuery;
pub use empty_query::EmptyQuery;
pub use node_walks::{push_disjuncts, push_query};
pub use occur::Occur;
pub use phrase_prefix_query::PhrasePrefixQuery;
pub use phrase_query::PhraseQuery;
pub use phrase_terms::are_phrase_terms;
pub use query_traits::{QueryClone, QueryTree};
pub use term_query::TermQuery;
