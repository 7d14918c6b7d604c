//! Worked examples, each computed over the definitions.

pub mod alive_sets;
pub mod document_bytes;
pub mod field_norms;
pub mod inverted_indexes;
pub mod packed_blocks;
pub mod positions;
pub mod record_bodies;
pub mod record_files;
pub mod skip_entries;
pub mod stores;
pub mod term_postings;
pub mod term_sections;
pub mod vint_blocks;
