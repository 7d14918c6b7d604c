//! Scorers: documents with scores, in order, and what makes one score of several.
#![tactic(auto)]

mod bit_set_posting_union;
mod buffered_union;
mod disjunction;
mod distinct_positions;
pub mod scorer_laws;
mod scorer_wrapper;
mod simple_union;
mod two_least;
mod union_list;
mod united_positions;
mod window;
mod window_bits;

pub use bit_set_posting_union::BitSetPostingUnion;
pub use buffered_union::BufferedUnionScorer;
pub use disjunction::Disjunction;
pub use docsets::{
    AllScorer, BitSetDocSet, BoostScorer, ConstScorer, DisjunctionMaxCombiner, DoNothingCombiner,
    EmptyScorer, ListScorer, ScoreCombiner, Scorer, SumCombiner, VecDocSet, leaf_laws,
};
pub use intersections::{
    Exclude, ExclusionList, ExclusionSet, Intersection, RequiredOptionalScorer,
};
pub use scorer_wrapper::ScorerWrapper;
pub use simple_union::SimpleUnion;
pub use term_scorer::{Explanation, Similarity, TermScorer};
