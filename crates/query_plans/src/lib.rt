//! Plans of queries: other trees of the same meaning, whose scorers leave more out.
#![tactic(auto)]

mod joined_clauses;
mod plans;
mod raised_unions;

pub use plans::plan;
