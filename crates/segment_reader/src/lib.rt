//! A segment as queries see it: its inverted index, the lengths of its fields, which of its documents are alive, and what
//! a search looks at.
#![tactic(auto)]

mod checked_terms;
mod doc_address;
mod enable_scoring;
mod field_index;
mod field_kind;
mod field_lengths;
mod field_lookup;
mod field_read;
mod indexes_read;
mod inverted_index_reader;
pub mod laws;
mod opened_term;
mod searcher;
mod section_bytes;
mod section_read;
mod segment_reader;
mod term_dictionary;
mod term_info;
mod term_keys;
mod term_range;
mod terms_read;

pub use doc_address::DocAddress;
pub use enable_scoring::EnableScoring;
pub use field_lengths::lengths_of_field;
pub use inverted_index_reader::InvertedIndexReader;
pub use searcher::Searcher;
pub use segment_reader::SegmentReader;
pub use term_dictionary::TermDictionary;
pub use term_info::TermInfo;
pub use term_range::TermRange;
