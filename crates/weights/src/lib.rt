//! The weights of queries: what each query answers in a segment, and what weighing and searching need of the crates
//! below.
#![tactic(auto)]

mod all_weight;
mod any_weight;
mod boolean_weight;
mod boost_weight;
mod calls;
mod const_score_weight;
mod const_weight;
mod disjunction_max_weight;
mod empty_weight;
mod feeds;
mod found_scorer;
mod given_weights;
mod no_scores;
mod query_weight;
mod scorer_weight;
mod term_or_empty_or_all_scorer;
mod weighed_phrases;
mod weighed_queries;
mod weighed_terms;
mod weight;

pub use all_weight::AllWeight;
pub use any_scorer::{AnyScorer, intersect_scorers};
pub use any_weight::AnyWeight;
pub use boolean_weight::BooleanWeight;
pub use boost_weight::BoostWeight;
pub use const_score_weight::ConstScoreWeight;
pub use const_weight::ConstWeight;
pub use disjunction_max_weight::DisjunctionMaxWeight;
pub use empty_weight::EmptyWeight;
pub use found_scorer::FoundScorer;
pub use given_weights::GivenWeights;
pub use leaf_weights::{PhrasePrefixWeight, PhraseWeight, TermWeight, prefix_end};
pub use no_scores::NoScores;
pub use query_trees::Occur;
pub use query_weight::QueryWeight;
pub use scorer_weight::ScorerWeight;
pub use segment_reader::{DocAddress, EnableScoring, Searcher, SegmentReader};
pub use settings::Statistics;
pub use term_or_empty_or_all_scorer::TermOrEmptyOrAllScorer;
pub use weighed_queries::weigh_term;
pub use weight::{SegmentWeight, Weight};
