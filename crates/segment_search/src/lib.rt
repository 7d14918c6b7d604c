//! What queries find in segments, of whose documents some may be dead: the best documents, and how many there are.
#![tactic(auto)]

mod best_documents;
mod best_of_segments;
mod counted_documents;
mod counted_weight;
mod counts;
mod hits;
mod planned_documents;
mod readers;
mod searches;

pub use counts::count;
pub use hits::StoredHit;
pub use searches::search_counted;
