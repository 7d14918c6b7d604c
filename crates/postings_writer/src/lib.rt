//! Writes the terms of documents, with their postings and positions, into the sections of an inverted index.
#![tactic(auto)]

mod block_writer;
mod field_postings;
mod field_serializer;
mod index_text;
mod inverted_index_serializer;
mod packed_key;
mod position_recorder;
mod postings_serializer;
mod postings_writer;
mod recorder;
mod seeded_state;
mod serialize;
mod serialize_field;
mod serialize_term;
mod term_dictionary_builder;
mod unfilled_block;
mod value_gaps;

pub use field_serializer::FieldSerializer;
pub use index_text::IndexedText;
pub use inverted_index_serializer::InvertedIndexSerializer;
pub use position_recorder::TfAndPositionRecorder;
pub use postings_serializer::PostingsSerializer;
pub use postings_writer::PostingsWriter;
pub use recorder::{DocIdRecorder, TermFrequencyRecorder};
pub use seeded_state::SeededState;
pub use serialize_field::index_record_option;
