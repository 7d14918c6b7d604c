//! Scorers of several forms, and what several scorers make together.
#![tactic(auto)]

mod any_scorer;
mod boolean;
mod disjunction_max;
mod either_scorer;
mod forms;
mod intersection;
mod leaf;
mod minimum_scorer;
mod scored_lists;
mod several;

pub use any_scorer::AnyScorer;
pub use boolean::boolean_scorer;
pub use disjunction_max::{BestOf, best_of, disjunction_max_scorer};
pub use either_scorer::EitherScorer;
pub use forms::{of_all, of_list, of_none, of_phrase, of_phrase_prefix, of_term, with_score};
pub use intersection::intersect_scorers;
pub use leaf::Leaf;
pub use minimum_scorer::{AtLeast, WithMinimum, at_least, with_minimum};
pub use scored_lists::{for_each_scorer, listed};
pub use several::{AllOf, AnyOf, all_of, any_of};
