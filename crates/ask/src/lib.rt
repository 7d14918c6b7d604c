//! A search of the index of a file by a text that a person writes: prints the best documents, or why the text isn't read.
#![tactic(auto)]

mod explanation;
mod failure;
mod further_request;
mod hit_order;
mod hits;
mod index_search;
mod names;
mod passages;
mod question;
mod rarity;
mod search;
mod sought;
mod stored_fields;
mod text_replies;
mod text_service;
mod value_counts;
mod whole_words;

pub use hit_order::HitOrder;
pub use index_search::run;
pub use query_text::FieldScores;
pub use question::Question;
pub use search::Search;
pub use text_replies::answer_line;
pub use text_service::TextService;
