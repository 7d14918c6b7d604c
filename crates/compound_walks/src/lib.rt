//! What compound queries, of clauses or of the best of several, feed a sink in a segment, and how many documents match.
#![tactic(auto)]

mod clause_counts;
mod clause_walks;
mod disjunct_counts;
mod disjunct_walks;

pub use clause_counts::count_clauses;
pub use clause_walks::feed_clauses;
pub use disjunct_counts::count_disjuncts;
pub use disjunct_walks::feed_disjuncts;
