//! How documents, lists and files stand as bytes, as definitions.
#![tactic(auto)]

mod checkpoint;
pub mod examples;
pub mod record_file_laws;
pub mod term_postings_laws;

pub use checkpoint::Checkpoint;
