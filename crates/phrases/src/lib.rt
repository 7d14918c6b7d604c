//! Phrases: scorers of phrases and of phrase prefixes.
#![tactic(auto)]

mod adjusted_terms;
mod next_rows;
mod one_term_phrase;
mod phrase_documents;
mod phrase_kind;
pub mod phrase_laws;
mod phrase_prefix_scorer;
mod phrase_scorer;
mod phrase_threshold;
mod place_finder;
mod position_marks;
mod postings_with_offset;
mod row;
mod row_search;
mod shared_positions;
mod slop_costs;
mod suffix_windows;
mod suffixes;
mod window;

pub use intersections::Positioned;
pub use one_term_phrase::OneTermPhrase;
pub use phrase_kind::PhraseKind;
pub use phrase_prefix_scorer::PhrasePrefixScorer;
pub use phrase_scorer::PhraseScorer;
pub use postings_with_offset::PostingsWithOffset;
pub use walks::{BlockSink, Sink, block_wand, block_wand_single_scorer};
