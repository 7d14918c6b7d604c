//! Intersections of scorers, differences, and a required scorer with an optional one.
#![tactic(auto)]

mod column_threshold;
mod exclude;
mod exclusion_list;
mod exclusion_set;
mod intersection;
mod joint_windows;
mod leapfrog;
mod leapfrog_above;
mod positioned;
mod required_optional_scorer;

pub use column_threshold::ColumnThreshold;
pub use exclude::Exclude;
pub use exclusion_list::ExclusionList;
pub use exclusion_set::ExclusionSet;
pub use intersection::Intersection;
pub use positioned::Positioned;
pub use required_optional_scorer::RequiredOptionalScorer;
