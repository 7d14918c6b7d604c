//! Walks: they feed sinks what scorers have, and leave out what isn't above a sink's threshold.
#![tactic(auto)]

mod block_sink;
mod meeting_walk;
mod sink;
mod term_walk;
mod union_walk;

pub use block_sink::{BlockSink, for_each_docset_buffered};
pub use meeting_walk::block_wand_intersection;
pub use sink::{Sink, for_each_pruning_scorer, offer};
pub use term_walk::block_wand_single_scorer;
pub use union_walk::block_wand;
