//! What segments are as bytes, and what commits, deletions and merges leave of lists of documents.
#![tactic(auto)]

pub mod examples;
pub mod laws;
pub mod segment_laws;
