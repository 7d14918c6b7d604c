//! The arguments that segments are opened with.

ghost use Rattle.std.specs.Prelude.{◌≡◌, ◌≢◌, IfErr, IfOk, ℕ};
ghost use Rattle.definitions.specs.declared.fault.Fault.TheVariants as faults;
ghost use Rattle.segment.specs.Opened.{IsOpened, bytes_of};
ghost use Rattle.segment_definitions.specs.Segments.{IsSegment};

use bytes::Bytes;
use definitions::Fault;
use schema::Schema;
use segment::Segment;
use std::alloc::Global;

/// The arguments that segments are opened with.
#[derive(Clone, Copy)]
pub(crate) struct Opener<'a> {
    pub(crate) alloc: Global,
    pub(crate) schema: &'a Schema,
    pub(crate) cache_num_blocks: usize,
}

impl Opener<'_> {
    /// Opens a segment from `bytes`.
    pub(crate) fn open(&self, bytes: Bytes) -> Result<Segment, Fault>
        ensures ok { IfOk result (IsOpened self.now.schema.now) }
        ensures bytes { IfOk result (λ segment. bytes_of segment ≡ bytes) }
        ensures err { IfErr result (λ fault. fault ≢ faults.OutOfMemory
            → (num_docs : ℕ) → ¬ IsSegment self.now.schema.now num_docs bytes) }
    {
        Segment::open(self.alloc, self.schema, bytes, self.cache_num_blocks)
    }
}
