//! The postings of one term: read, walked, and checked where the bytes are of unknown origin.
#![tactic(auto)]

mod block_segment_postings;
mod block_totals;
pub mod cursor_laws;
mod decoded_block;
mod entry_check;
mod full_block_check;
mod full_blocks_check;
mod greatest_count;
mod position_lists;
mod positions_check;
mod postings_check;
mod rest_check;
mod rest_numbers;
mod segment_postings;
mod term_check;
pub mod term_laws;

pub use block_segment_postings::BlockSegmentPostings;
pub use postings_check::recorded_of;
pub use segment_postings::SegmentPostings;
pub use term_check::check_term;
