//! Replies of several indexes to one request, merged into the reply of one index over all their documents.
#![tactic(auto)]

mod counts;
mod hits;
mod merge_error;
mod merged_replies;
mod requests;
pub mod shard_laws;

pub use merge_error::MergeError;
pub use merged_replies::merge_replies;
pub use requests::wanted_hits;
