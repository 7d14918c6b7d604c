//! A prepared merge.

ghost use Rattle.std.specs.Prelude.{◌≡◌};
ghost use Rattle.index_state.specs.Merges.{merge_frame_in};

use bytes::Bytes;
use common::AliveBitSet;
use segment::Segment;

/// A prepared merge: what it writes and then installs.
#[derive(Drop)]
pub struct PreparedMerge {
    pub(crate) frame: Bytes,
    // Replaces the committed segments `from..to`; none if no document is alive.
    pub(crate) segment: Option<Segment>,
    pub(crate) from: usize,
    pub(crate) to: usize,
    // One for each segment that is committed after the merge.
    pub(crate) alive: Vec<AliveBitSet>,
}

impl PreparedMerge {
    /// Returns the frame of the merge's record.
    pub fn frame(&self) -> &[u8]
        ensures { result.now ≡ merge_frame_in self.now }
    {
        self.frame.as_slice()
    }
}
