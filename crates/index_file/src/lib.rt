//! The file of an index: its records, the first one, those that list segments, and how it is opened.
#![tactic(auto)]

mod alive_sets_reader;
mod append_steps;
mod body_reader;
mod body_writer;
pub mod file_laws;
mod first_body;
mod first_record;
mod frame;
mod fresh_place;
mod index_file;
mod kept_indices;
pub mod laws;
mod making_checks;
mod member;
mod next_list;
mod part;
mod part_reader;
mod parts_reader;
mod record;
mod record_file;
mod segment_opener;

pub use body_reader::{SegmentsBody, read_segments_body};
pub use body_writer::SegmentsBodyWriter;
pub use first_body::{MAX_INDEX_FIELDS, put_first_body, read_first_body};
pub use first_record::first_frame;
pub use frame::{CLOSED, finish_frame, start_frame};
pub use fresh_place::FreshPlace;
pub use index_file::IndexFile;
pub use kept_indices::places_follow;
pub use making_checks::{are_analyzed, check_making};
pub use member::Member;
pub use part::Part;
pub use record_file::RecordFile;
