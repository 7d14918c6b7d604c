//! What stands in the file of an index: its records and segments, whether it is sound, its documents as lines, a copy that opens.
#![tactic(auto)]

mod check;
mod contents;
mod contents_list;
mod create_line;
mod damage;
mod document_damage;
mod dump;
mod failure;
mod file;
mod inspection;
mod mended_copy;
mod record_damage;
mod records;
mod request;
mod sections;

pub use inspection::run;
pub use request::Request;
