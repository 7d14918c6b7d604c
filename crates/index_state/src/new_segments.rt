//! New segments, encoded where they stand in a record, and opened over their bytes there.

ghost use Rattle.std.specs.Prelude.{[], ◌++◌, ◌<◌, ◌≡◌, ◌≤◌, ◌⊎◌, IfErr, IfOk, List, OnErr, OnOk, length, map, ℕ};
ghost use Rattle.std.specs.List.{AllByRecursion, AllZip};
ghost use Rattle.definitions.specs.Analyzers as definitions;
ghost use Rattle.definitions.specs.Values.{Document};
ghost use Rattle.definitions.specs.declared.fault.Fault.TheVariants as faults;
ghost use Rattle.segment.specs.Opened.{IsOpened, StandsFor, bytes_of, num_docs_of};
ghost use Rattle.segment.specs.Writers.{HasWritten};
ghost use Rattle.segment.specs.declared.segment.Segment as code;
ghost use Rattle.segment_definitions.specs.ListBodies.{fresh, part_bytes};
ghost use Rattle.segment_definitions.specs.Segments.{IsSegmentOf};
ghost use Rattle.index_state.specs.Limits.{TermsPass};
ghost use Rattle.index_state.specs.NewSegments.{ArePut, IsKnownIn, IsNew, segment_at, segment_in, told_at, told_of};

use crate::pending_segments::FullSegment;
use bytes::Bytes;
use definitions::Fault;
use index_file::{FreshPlace, SegmentsBodyWriter};
use schema::Schema;
use segment::{Segment, SegmentWriter};
use std::alloc::{AllocError, Global};
use std::collections::VecDeque;

/// A new segment: its range in the body of a record, and how many documents it has.
#[derive(Clone, Copy)]
pub(crate) struct NewSegment {
    pub(crate) range: FreshPlace,
    pub(crate) num_docs: u32,
}

/// Appends full segments to `body`. Each is freed once it is copied.
pub(crate) fn put_full(
    alloc: Global,
    body: &mut SegmentsBodyWriter,
    full: Vec<FullSegment>,
) -> Result<Vec<NewSegment>, AllocError>
    ensures put { IfOk result (λ news. ArePut body.old body.new news.items) }
    ensures same { IfOk result (λ news. map (told_at body.new) news.items ≡ map told_of full.items) }
{
    let mut news = Vec::with_capacity(alloc, full.len())?;
    let mut left = VecDeque::from_vec(full);
    while let Some(segment) = left.pop_front() {
        let range = body.put_fresh(segment.bytes.as_slice())?;
        let num_docs = segment.num_docs;
        news.push(NewSegment { range, num_docs })?;
    }
    Ok(news)
}

/// Encodes the segment of `writer` as a new one behind `body`, which is returned with it.
pub(crate) fn put_open(
    alloc: Global,
    schema: &Schema,
    body: SegmentsBodyWriter,
    writer: SegmentWriter,
) -> Result<(SegmentsBodyWriter, NewSegment), Fault>
    requires written { ∥ ((analyze : definitions.Analyzer) × (block_size : ℕ) × (docs : List Document)
        × HasWritten schema.now analyze block_size writer docs × (0 < length docs)) ∥₁ }
    ensures put { IfOk result (λ put. put.0 ≡ body ++ part_bytes (fresh (segment_at put.0 put.1))) }
    ensures within { IfOk result (λ put. (put.1.range.start ≤ put.1.range.end) × (put.1.range.end ≤ length put.0)) }
    ensures ok { (analyze : definitions.Analyzer) (block_size : ℕ) (docs : List Document)
        → HasWritten schema.now analyze block_size writer docs
        → IfOk result (λ put. IsNew schema.now analyze put.0 docs put.1) }
    ensures err { IfErr result (λ fault. (fault ≡ faults.OutOfMemory) ⊎ (fault ≡ faults.Limit)) }
    ensures limit { (analyze : definitions.Analyzer) (block_size : ℕ) (docs : List Document)
        → HasWritten schema.now analyze block_size writer docs
        → IfErr result (λ fault. fault ≡ faults.Limit → TermsPass schema.now analyze docs) }
{
    let num_docs = writer.num_docs();
    let prefix = body.begin_fresh()?;
    let start = prefix.len();
    let frame = writer.close_behind(schema, prefix)?;
    let (body, range) = SegmentsBodyWriter::end_fresh(alloc, frame, start);
    Ok((body, NewSegment { range, num_docs }))
}

/// Opens a new segment over its bytes in `frame`.
pub(crate) fn open_new(
    alloc: Global,
    schema: &Schema,
    cache_num_blocks: usize,
    frame: &Bytes,
    new: &NewSegment,
) -> Result<Segment, AllocError>
    requires known { ∥ IsKnownIn schema.now frame.now new.now ∥₁ }
    ensures opened { IfOk result (IsOpened schema.now) }
    ensures bytes { IfOk result (λ segment. bytes_of segment ≡ segment_in frame.now new.now) }
    ensures counted { IfOk result (λ segment. num_docs_of segment ≡ new.now.num_docs) }
{
    let bytes = new.range.slice(frame)?;
    Segment::new(alloc, schema, bytes, cache_num_blocks)
}

/// Opens new segments over their bytes in `frame`, and appends them to `segments`; some of them if out of memory.
pub(crate) fn open_news(
    alloc: Global,
    schema: &Schema,
    cache_num_blocks: usize,
    frame: &Bytes,
    news: &[NewSegment],
    segments: &mut Vec<Segment>,
) -> Result<(), AllocError>
    requires known { ∥ AllByRecursion (IsKnownIn schema.now frame.now) news.now ∥₁ }
    ensures opened { ∥ AllByRecursion (IsOpened schema.now) segments.old.items ∥₁
        → ∥ AllByRecursion (IsOpened schema.now) segments.new.items ∥₁ }
    ensures behind { (more : List code.Segment) × (segments.new.items ≡ segments.old.items ++ more) }
    ensures bytes { OnOk result (map bytes_of segments.new.items
        ≡ map bytes_of segments.old.items ++ map (segment_in frame.now) news.now) }
    ensures counted { OnOk result (map num_docs_of segments.new.items
        ≡ map num_docs_of segments.old.items ++ map (λ new. new.num_docs) news.now) }
    ensures ok { (analyze : definitions.Analyzer) (docs some : List (List Document))
        → AllZip (StandsFor schema.now analyze) docs segments.old.items
        → AllZip (λ ds new. IsSegmentOf schema.now analyze ds (segment_in frame.now new)) some news.now
        → OnOk result (AllZip (StandsFor schema.now analyze) (docs ++ some) segments.new.items) }
    ensures err { (analyze : definitions.Analyzer) (docs some : List (List Document))
        → AllZip (StandsFor schema.now analyze) docs segments.old.items
        → AllZip (λ ds new. IsSegmentOf schema.now analyze ds (segment_in frame.now new)) some news.now
        → OnErr result ((first : List (List Document))
        × AllZip (StandsFor schema.now analyze) (docs ++ first) segments.new.items) }
{
    for new in news {
        let segment = open_new(alloc, schema, cache_num_blocks, frame, new)?;
        segments.push(segment)?;
    }
    Ok(())
}
