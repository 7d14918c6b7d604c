//! What segments that are merged leave: the terms, postings, lengths and stored documents of their living documents.
#![tactic(auto)]

mod doc_id_mapping;
mod field_terms;
mod key_laws;
mod living_postings;
mod living_slots;
mod member;
mod member_norms;
mod member_stores;
mod member_terms;
pub mod merge_laws;
mod merged_field;
mod merged_index;
mod merged_term;
pub mod norm_laws;
mod term_merger;

pub use doc_id_mapping::DocIdMapping;
pub use key_laws::merged_keys_ascend;
pub use living_postings::write_postings;
pub use living_slots::append_living;
pub use member::Member;
pub use member_norms::{MemberNorms, merge_norms};
pub use member_stores::{MemberStore, merge_stores};
pub use merged_index::merge_fields;
pub use term_merger::TermMerger;
