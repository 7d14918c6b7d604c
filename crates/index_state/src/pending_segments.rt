//! The segments of the pending documents.

ghost use Rattle.std.specs.Prelude.{[], ◌++◌, ◌+◌, ◌<◌, ◌^◌, ◌∷◌, ◌≡◌, ◌≤◌, ◌⊎◌, IfErr, IfOk, List, None, OnErr, OnOk, length, ℕ};
ghost use Rattle.std.specs.List.{AllByRecursion, AllZip};
ghost use Rattle.definitions.specs.Analyzers as definitions;
ghost use Rattle.definitions.specs.Schema as schemas;
ghost use Rattle.definitions.specs.State.{as_group};
ghost use Rattle.definitions.specs.Values.{Document};
ghost use Rattle.definitions.specs.declared.fault.Fault.TheVariants as faults;
ghost use Rattle.index_state.specs.Limits.{OneMorePasses, TermsPass};
ghost use Rattle.index_state.specs.NewSegments.{AreKnown, ArePut, IsNew};
ghost use Rattle.index_state.specs.Pending.{IsFull};
ghost use Rattle.index_state.specs.declared.pending_segments.FullSegment as full_segments;
ghost use Rattle.segment.specs.Opened.{IsOpened, StandsFor};
ghost use Rattle.segment.specs.Writers.{HasWritten, IsWithin};
ghost use Rattle.segment.specs.declared.segment.Segment as code;
ghost use Rattle.segment_definitions.specs.Segments.{IsSegmentOf, IsTaken};
ghost use Rattle.segment_definitions.specs.Slots.{slot};

use crate::new_segments::{NewSegment, put_full, put_open};
use bytes::Bytes;
use common::Analyzer;
use definitions::Fault;
use document::CompactDoc;
use index_file::SegmentsBodyWriter;
use schema::Schema;
use segment::{Segment, SegmentWriter};
use settings::Settings;
use std::alloc::{AllocError, Global};

/// A full segment of pending documents: its bytes, and how many documents it has.
#[derive(Drop)]
pub(crate) struct FullSegment {
    pub(crate) bytes: Bytes,
    pub(crate) num_docs: u32,
}

/// The segments of the pending documents: those that are full, as their bytes, and the one that isn't, in which a
/// document is indexed when it is added. After a refused call they are of no use.
#[derive(Drop)]
pub struct PendingSegments {
    pub(crate) alloc: Global,
    pub(crate) full: Vec<FullSegment>,
    // None as long as it has no document.
    pub(crate) writer: Option<SegmentWriter>,
}

impl PendingSegments {
    ghost use Rattle.index_state.specs.Pending.{Holds, HoldsLast, HoldsSome, num_segments_in};

    /// Returns no segments.
    pub(crate) fn new(alloc: Global) -> PendingSegments
        ensures holds { (schema : schemas.Schema) (analyze : definitions.Analyzer) (block_size : ℕ)
            → Holds schema analyze block_size result [] [] }
        ensures none { num_segments_in result ≡ 0 }
    {
        PendingSegments {
            alloc,
            full: Vec::new(alloc),
            writer: None,
        }
    }

    /// Returns the number of full segments.
    pub(crate) fn num_full(&self) -> usize
        ensures { (schema : schemas.Schema) (analyze : definitions.Analyzer) (block_size : ℕ)
            (full : List (List Document)) (last : List Document)
            → Holds schema analyze block_size self.now full last → result ≡ length full }
    {
        self.full.len()
    }

    /// Returns the number of segments, full or not.
    pub(crate) fn num_segments(&self) -> usize
        ensures { result ≡ num_segments_in self.now }
    {
        self.full.len() + usize::from(self.writer.is_some())
    }

    /// Returns the number of documents of the segment that isn't full.
    pub(crate) fn num_open_docs(&self) -> usize
        ensures { (schema : schemas.Schema) (analyze : definitions.Analyzer) (block_size : ℕ)
            (full : List (List Document)) (last : List Document)
            → Holds schema analyze block_size self.now full last → result ≡ length last }
    {
        match &self.writer {
            Some(writer) => writer.num_docs() as usize,
            None => 0,
        }
    }

    /// Indexes `doc` in the open segment, and closes that once it is full. A slot of `doc` that is too long is `Limit`.
    pub(crate) fn add<A: Analyzer>(
        &mut self,
        schema: &Schema,
        analyzer: &A,
        settings: &Settings,
        doc: &CompactDoc,
    ) -> Result<(), Fault>
        requires taken { IsTaken schema.now doc.now }
        requires held { ∥ HoldsSome schema.now (A.analyze analyzer.now) settings.now.block_size self.old ∥₁ }
        ensures ok { (full : List (List Document)) (last : List Document)
            → Holds schema.now (A.analyze analyzer.now) settings.now.block_size self.old full last
            → OnOk result (HoldsLast schema.now (A.analyze analyzer.now) settings.now.block_size
            settings.now.docs_per_segment self.new full (last ++ doc.now ∷ [])) }
        ensures within { (full : List (List Document)) (last : List Document)
            → Holds schema.now (A.analyze analyzer.now) settings.now.block_size self.old full last
            → OnOk result (IsWithin schema.now (A.analyze analyzer.now) settings.now.block_size last doc.now) }
        ensures err { IfErr result (λ fault. (fault ≡ faults.OutOfMemory) ⊎ (fault ≡ faults.Limit)) }
        ensures limit { (full : List (List Document)) (last : List Document)
            → Holds schema.now (A.analyze analyzer.now) settings.now.block_size self.old full last
            → IfErr result (λ fault. fault ≡ faults.Limit
            → (2 ^ 32 ≤ settings.now.block_size + length (slot schema.now doc.now) + 8)
            ⊎ OneMorePasses schema.now (A.analyze analyzer.now) settings.now.docs_per_segment last doc.now) }
    {
        let mut writer = self.open_writer(schema, settings, analyzer.hash_seed())?;
        writer.add(schema, analyzer, doc)?;
        if writer.num_docs() < settings.docs_per_segment() {
            self.writer = Some(writer);
            return Ok(());
        }
        self.push(writer, schema)
    }

    /// Takes the writer of the open segment, or returns a new one with this hash seed.
    fn open_writer(
        &mut self,
        schema: &Schema,
        settings: &Settings,
        hash_seed: u128,
    ) -> Result<SegmentWriter, Fault>
        ensures ok { (analyze : definitions.Analyzer) (full : List (List Document)) (last : List Document)
            → Holds schema.now analyze settings.now.block_size self.old full last
            → IfOk result (λ writer. HasWritten schema.now analyze settings.now.block_size writer last) }
        ensures err { IfErr result (λ fault. fault ≡ faults.OutOfMemory) }
        ensures full { self.new.full.items ≡ self.old.full.items }
        ensures none { self.new.writer ≡ None }
    {
        match self.writer.take() {
            Some(writer) => Ok(writer),
            None => {
                let block_size = settings.block_size() as usize;
                SegmentWriter::with_hash_seed(self.alloc, schema, block_size, hash_seed)
            }
        }
    }

    /// Closes the segment of `writer`: its bytes wait behind those of the full ones.
    fn push(&mut self, writer: SegmentWriter, schema: &Schema) -> Result<(), Fault>
        requires written { ∥ ((analyze : definitions.Analyzer) × (block_size : ℕ) × (docs : List Document)
            × HasWritten schema.now analyze block_size writer docs × (0 < length docs)) ∥₁ }
        ensures ok { (analyze : definitions.Analyzer) (block_size : ℕ) (docs : List Document)
            → HasWritten schema.now analyze block_size writer docs
            → OnOk result ((segment : full_segments.FullSegment) × IsFull schema.now analyze docs segment
            × (self.new.full.items ≡ self.old.full.items ++ segment ∷ [])) }
        ensures err { IfErr result (λ fault. (fault ≡ faults.OutOfMemory) ⊎ (fault ≡ faults.Limit)) }
        ensures limit { (analyze : definitions.Analyzer) (block_size : ℕ) (docs : List Document)
            → HasWritten schema.now analyze block_size writer docs
            → IfErr result (λ fault. fault ≡ faults.Limit → TermsPass schema.now analyze docs) }
        ensures writer { self.new.writer ≡ self.old.writer }
    {
        let num_docs = writer.num_docs();
        let bytes = Bytes::from_vec(writer.close(schema)?)?;
        self.full.push(FullSegment { bytes, num_docs })?;
        Ok(())
    }

    /// Closes the segment that isn't full, if there is one.
    pub(crate) fn close(&mut self, schema: &Schema) -> Result<(), Fault>
        requires held { ∥ ((analyze : definitions.Analyzer) × (block_size : ℕ)
            × HoldsSome schema.now analyze block_size self.old) ∥₁ }
        ensures ok { (analyze : definitions.Analyzer) (block_size : ℕ)
            (full : List (List Document)) (last : List Document)
            → Holds schema.now analyze block_size self.old full last
            → OnOk result (Holds schema.now analyze block_size self.new (full ++ as_group last) []) }
        ensures err { IfErr result (λ fault. (fault ≡ faults.OutOfMemory) ⊎ (fault ≡ faults.Limit)) }
        ensures limit { (analyze : definitions.Analyzer) (block_size : ℕ)
            (full : List (List Document)) (last : List Document)
            → Holds schema.now analyze block_size self.old full last
            → IfErr result (λ fault. fault ≡ faults.Limit → TermsPass schema.now analyze last) }
    {
        match self.writer.take() {
            Some(writer) => self.push(writer, schema),
            None => Ok(()),
        }
    }

    /// Encodes the segments in order, each as a new one of `body`, which is returned with them. Each is freed once its
    /// bytes stand there.
    pub(crate) fn encode(
        self,
        schema: &Schema,
        body: SegmentsBodyWriter,
    ) -> Result<(SegmentsBodyWriter, Vec<NewSegment>), Fault>
        requires held { ∥ ((analyze : definitions.Analyzer) × (block_size : ℕ)
            × HoldsSome schema.now analyze block_size self) ∥₁ }
        ensures put { IfOk result (λ put. ArePut body put.0 put.1.items) }
        ensures count { IfOk result (λ put. length put.1.items ≡ num_segments_in self) }
        ensures known { IfOk result (λ put. ∥ AreKnown schema.now put.0 put.1.items ∥₁) }
        ensures ok { (analyze : definitions.Analyzer) (block_size : ℕ)
            (full : List (List Document)) (last : List Document)
            → Holds schema.now analyze block_size self full last
            → IfOk result (λ put. AllZip (IsNew schema.now analyze put.0) (full ++ as_group last) put.1.items) }
        ensures err { IfErr result (λ fault. (fault ≡ faults.OutOfMemory) ⊎ (fault ≡ faults.Limit)) }
        ensures limit { (analyze : definitions.Analyzer) (block_size : ℕ)
            (full : List (List Document)) (last : List Document)
            → Holds schema.now analyze block_size self full last
            → IfErr result (λ fault. fault ≡ faults.Limit → TermsPass schema.now analyze last) }
    {
        let PendingSegments {
            alloc,
            full,
            writer,
        } = self;
        let mut body = body;
        let mut news = put_full(alloc, &mut body, full)?;
        let Some(writer) = writer else {
            return Ok((body, news));
        };
        let (body, new) = put_open(alloc, schema, body, writer)?;
        news.push(new)?;
        Ok((body, news))
    }

    /// Opens the full segments, and appends them to `segments`; some of them if out of memory.
    pub(crate) fn open_into(
        &self,
        schema: &Schema,
        cache_num_blocks: usize,
        segments: &mut Vec<Segment>,
    ) -> Result<(), AllocError>
        requires held { ∥ ((analyze : definitions.Analyzer) × (block_size : ℕ)
            × HoldsSome schema.now analyze block_size self.now) ∥₁ }
        ensures opened { ∥ AllByRecursion (IsOpened schema.now) segments.old.items ∥₁
            → ∥ AllByRecursion (IsOpened schema.now) segments.new.items ∥₁ }
        ensures behind { (more : List code.Segment) × (segments.new.items ≡ segments.old.items ++ more) }
        ensures count { OnOk result (length segments.new.items
            ≡ length segments.old.items + length self.now.full.items) }
        ensures ok { (analyze : definitions.Analyzer) (block_size : ℕ)
            (docs full : List (List Document)) (last : List Document)
            → AllZip (StandsFor schema.now analyze) docs segments.old.items
            → Holds schema.now analyze block_size self.now full last
            → OnOk result (AllZip (StandsFor schema.now analyze) (docs ++ full) segments.new.items) }
        ensures err { (analyze : definitions.Analyzer) (block_size : ℕ)
            (docs full : List (List Document)) (last : List Document)
            → AllZip (StandsFor schema.now analyze) docs segments.old.items
            → Holds schema.now analyze block_size self.now full last
            → OnErr result ((some : List (List Document))
            × AllZip (StandsFor schema.now analyze) (docs ++ some) segments.new.items) }
    {
        for full in &self.full {
            let bytes = full.bytes.clone()?;
            let segment = Segment::new(self.alloc, schema, bytes, cache_num_blocks)?;
            segments.push(segment)?;
        }
        Ok(())
    }
}
