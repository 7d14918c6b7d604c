//! Worked examples, each computed over the definitions.

pub mod index_files;
pub mod keys;
pub mod list_bodies;
pub mod segments;
