//! Weights of terms, phrases and phrase prefixes: in each segment, the documents that match with their scores.
#![tactic(auto)]

mod leaf_scorers;
mod phrase_prefix_weight;
mod phrase_weight;
mod prefix_ends;
mod read_suffixes;
mod read_terms;
mod term_weight;
mod whole_phrase;

pub use leaf_scorers::{
    phrase_query_scorer, prefix_query_scorer, sum_of_weights, term_query_scorer, weigh_term,
};
pub use phrase_prefix_weight::PhrasePrefixWeight;
pub use phrase_weight::PhraseWeight;
pub use prefix_ends::prefix_end;
pub use term_weight::TermWeight;
pub use whole_phrase::WholePhrase;
