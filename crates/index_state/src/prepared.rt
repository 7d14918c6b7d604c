//! A prepared commit.

ghost use Rattle.std.specs.Prelude.{◌≡◌};
ghost use Rattle.index_state.specs.Commits.{frame_in};

use bytes::Bytes;
use common::AliveBitSet;

/// A prepared commit: what it writes and then installs.
#[derive(Drop)]
pub struct Prepared {
    pub(crate) frame: Bytes,
    // One for each segment, the new ones too.
    pub(crate) alive: Vec<AliveBitSet>,
}

impl Prepared {
    /// Returns the frame of the commit's record.
    pub fn frame(&self) -> &[u8]
        ensures { result.now ≡ frame_in self.now }
    {
        self.frame.as_slice()
    }
}
