//! Texts that people write, read as queries.
#![tactic(auto)]

mod alternative;
mod clauses;
mod field_scores;
pub mod grammar_examples;
mod heads;
mod json_terms;
mod operators;
mod phrase;
mod pieces;
mod query_reader;
mod refusal;
mod text_terms;
mod typed_marks;
mod values;
mod vocabulary;
pub mod writing_laws;

pub use field_scores::FieldScores;
pub use operators::has_small_operator;
pub use phrase::{Phrase, Vocabulary};
pub use pieces::{Form, Piece, pieces_of};
pub use query_reader::read_text;
pub use refusal::{Reason, Refusal};
pub use vocabulary::SchemaVocabulary;
