//! The range of a new segment in the body of a record.

ghost use Rattle.std.specs.Prelude.{◌+◌, ◌≡◌, ◌≤◌, IfOk, length};
ghost use Rattle.index_file.specs.FreshPlaces.{framed_at};

use crate::frame::LENGTH_BYTES;
use bytes::Bytes;
use std::alloc::AllocError;

/// The range of a new segment in the body of a record: where its bytes begin, and where they end.
#[derive(Clone, Copy)]
pub struct FreshPlace {
    pub start: usize,
    pub end: usize,
}

impl FreshPlace {
    /// Shares the bytes of the segment, given the frame of the body.
    pub fn slice(&self, frame: &Bytes) -> Result<Bytes, AllocError>
        requires forward { self.now.start ≤ self.now.end }
        requires within { 8 + self.now.end ≤ length frame.now }
        ensures { IfOk result (λ bytes. bytes ≡ framed_at frame.now self.now) }
    {
        let _bytes = frame.len();
        frame.slice(LENGTH_BYTES + self.start..LENGTH_BYTES + self.end)
    }
}
