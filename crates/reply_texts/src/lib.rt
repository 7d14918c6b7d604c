//! Replies to searches and counts, encoded as JSON texts.
#![tactic(auto)]

mod count_texts;
mod hit_texts;

pub use count_texts::count_text;
pub use hit_texts::hits_text;
