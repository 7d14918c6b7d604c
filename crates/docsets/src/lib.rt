//! Cursors over documents and postings, scorers over one list of documents, and moves of several cursors.
#![tactic(auto)]

mod all_scorer;
mod any_of;
mod bit_set_doc_set;
mod boost_scorer;
mod const_scorer;
mod disjunction_max_combiner;
mod do_nothing_combiner;
mod doc_set;
mod empty_scorer;
mod leader;
pub mod leaf_laws;
mod list_scorer;
mod member_laws;
mod moves;
mod postings;
mod score_combiner;
mod scorer;
mod scores;
mod seek_danger_result;
mod sum_combiner;
mod vec_doc_set;

pub use all_scorer::AllScorer;
pub use any_of::{advance_any, seek_any};
pub use bit_set_doc_set::BitSetDocSet;
pub use boost_scorer::BoostScorer;
pub use const_scorer::ConstScorer;
pub use disjunction_max_combiner::DisjunctionMaxCombiner;
pub use do_nothing_combiner::DoNothingCombiner;
pub use doc_set::{COLLECT_BLOCK_BUFFER_LEN, DocSet};
pub use empty_scorer::EmptyScorer;
pub use leader::{Leader, lead};
pub use list_scorer::ListScorer;
pub use member_laws::at_least_is_that_of_definitions;
pub use moves::{least_of, move_all, move_to};
pub use postings::Postings;
pub use score_combiner::ScoreCombiner;
pub use scorer::{Scorer, Window};
pub use scores::{combine_at, take_score};
pub use seek_danger_result::SeekDangerResult;
pub use sum_combiner::SumCombiner;
pub use vec_doc_set::VecDocSet;
