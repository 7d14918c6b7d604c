//! Segments of worked cases: how they are written, the one that lines have written, sinks that count what they take, and
//! scores as they are told. A program of cases has its own operations on them.
#![tactic(auto)]

mod held;
mod sinks;
mod told_scores;
mod written_segments;

pub use held::Held;
pub use sinks::{Blocks, Highest};
pub use told_scores::{explained_score, scored};
pub use written_segments::written;
