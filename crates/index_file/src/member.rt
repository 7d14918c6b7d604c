//! A segment of a list.

use common::AliveBitSet;
use segment::Segment;

/// A segment of a list, and which of its documents are alive.
#[derive(Drop)]
pub struct Member {
    pub segment: Segment,
    pub alive: AliveBitSet,
}
