//! Terms in their section, in blocks of one or sixteen: each is written behind the one before, taken back, and looked up
//! without its key being put together.
#![tactic(auto)]

mod block_starts;
mod blocks;
mod keys;
pub mod laws;
mod look_ups;
mod short_codes;
mod term_lengths;
mod term_starts;
mod terms_read;

pub use block_starts::{blocks_up_to, prefixes_of};
pub use blocks::{begins_block, terms_in_block};
pub use keys::put_key;
pub use look_ups::{BlockSearch, EntryParts, TermPlace, search_block, take_parts};
pub use term_lengths::EntryLengths;
pub use term_starts::TermStart;
pub use terms_read::take_term;
