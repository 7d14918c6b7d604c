//! The state of an index in memory: committed segments, which of their documents are alive, and what is pending.
#![tactic(auto)]

mod add_checks;
mod commit_frame;
mod commit_record;
mod committed_alive_sets;
mod deletions;
mod index_state;
mod last_deletions;
mod living_counts;
mod merge;
mod merge_record;
mod merged_alive_sets;
mod new_segments;
mod parts;
mod pending_segments;
mod prepared;
mod prepared_merge;
mod replaced_segments;
mod status;

pub use index_state::IndexState;
pub use prepared::Prepared;
pub use prepared_merge::PreparedMerge;
pub use segment_search::StoredHit;
pub use status::Status;
