//! Segments: writing them from documents, opening them from bytes (all checked but the store's blocks), reading,
//! deleting documents, and merging.
#![tactic(auto)]

mod deletions;
mod documents;
mod known_parts;
mod living_counts;
mod member_segments;
mod merged_norms;
mod merged_slots;
mod merged_terms;
mod merger;
pub mod readings;
mod section_checks;
mod section_list;
mod sections;
mod segment;
mod segment_writer;

pub use best_k::BestK;
pub use deletions::{delete_before, delete_in};
pub use documents::is_taken;
pub use merger::{merge_behind, merge_segments};
pub use section_list::Sections;
pub use segment::Segment;
pub use segment_writer::SegmentWriter;
