//! What the index promises, as definitions over plain lists, numbers and data types.
#![tactic(auto)]

pub mod answer_laws;
pub mod call_laws;
pub mod disk_laws;
pub mod examples;
mod fault;
mod given_depths;
pub mod grammar_laws;
pub mod history_laws;
pub mod merge_laws;
pub mod prefix_laws;
pub mod scan_laws;
pub mod score_laws;
pub mod word_laws;

pub use fault::Fault;
pub use given_depths::MAX_GIVEN_DEPTH;
