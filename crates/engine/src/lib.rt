//! The index: it accepts documents and deletions, keeps each commit as a record of its device's file, and finds what is
//! committed.
#![tactic(auto)]

mod additions;
mod commit;
mod deletions;
pub mod file_laws;
mod hits;
mod index;
mod json_texts;
mod merge;
mod open_file;
mod refused_opening;
mod searches;

pub use hits::Hit;
pub use index::Index;
pub use index_state::{Status, StoredHit};
pub use json_texts::parse_json;
pub use refused_opening::Refused;
