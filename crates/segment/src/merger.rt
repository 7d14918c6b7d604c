//! Merges of segments.

ghost use Rattle.std.specs.Prelude.{[], ◌<◌, ◌≡◌, ◌≢◌, ◌≤◌, IfErr, IfOk, IfSome, List, MatchOption, None, drop, length, map, take, ℕ};
ghost use Rattle.std.specs.List.{zip};
ghost use Rattle.definitions.specs.Alive as alive;
ghost use Rattle.definitions.specs.Alive.{live};
ghost use Rattle.definitions.specs.Analyzers.{Analyzer};
ghost use Rattle.definitions.specs.declared.fault.Fault.TheVariants as faults;
ghost use Rattle.layouts.specs.Stores.{max_docs};
ghost use Rattle.segment.specs.Opened.{IsOpened, StandsFor, num_docs_of};
ghost use Rattle.segment_definitions.specs.Segments as layout;
ghost use Rattle.segment_definitions.specs.Segments.{AreWritten, IsSegment, IsSegmentOf};
ghost use Rattle.segment.specs.Members.{AreOpened, StandFor, living_count, member_of};
ghost use Rattle.segment.specs.Limits.{DocumentsPass};
ghost use Rattle.segment.specs.Slots.{AreHeld};

use crate::living_counts::num_living;
use crate::member_segments::{MemberSegment, members_of_lists, members_of_pairs};
use crate::merged_norms::merge_lengths;
use crate::merged_slots::merge_slots;
use crate::merged_terms::merge_terms;
use crate::{Sections, Segment};
use bytes::Bytes;
use codes::FieldNormReaders;
use common::AliveBitSet;
use definitions::Fault;
use schema::{Schema, length_fields};
use std::alloc::Global;

/// Merges the living documents of `members`, in order, into one open segment; `None` if no document is alive. Blocks of
/// its store are closed when their documents' bytes exceed `block_size`; those of members whose documents are all alive
/// stay as they are, without a look at their slots. The store caches up to `cache_num_blocks` blocks. Too many
/// documents are `Limit` before anything is written.
pub fn merge_segments(
    alloc: Global,
    schema: &Schema,
    block_size: usize,
    cache_num_blocks: usize,
    members: &[(Segment, AliveBitSet)],
) -> Result<Option<Segment>, Fault>
    requires { ∥ AreOpened schema.now members.now ∥₁ }
    ensures living { IfOk result (λ merged. MatchOption merged (living_count members.now ≡ 0)
        (λ segment. (0 < living_count members.now) × (num_docs_of segment ≡ living_count members.now))) }
    ensures opened { IfOk result (λ merged. IfSome merged (IsOpened schema.now)) }
    ensures stands { (analyze : Analyzer) (segments : List alive.Segment)
        → StandFor schema.now analyze members.now segments
        → IfOk result (λ merged. MatchOption merged (live segments ≡ [])
        (StandsFor schema.now analyze (live segments))) }
    ensures err { IfErr result (λ fault. fault ≢ faults.OutOfMemory → fault ≢ faults.Limit
        → (fault ≡ faults.Damaged None) × ((all : List (List (List ℕ))) → ¬ AreHeld members.now all)) }
    ensures limit { (analyze : Analyzer) (segments : List alive.Segment)
        → StandFor schema.now analyze members.now segments
        → IfErr result (λ fault. fault ≢ faults.OutOfMemory → (fault ≡ faults.Limit)
        × DocumentsPass schema.now analyze block_size (live segments)) }
{
    let members = members_of_pairs(alloc, members)?;
    merge_members(alloc, schema, block_size, cache_num_blocks, &members)
}

/// Encodes the segment of the living documents of `segments`, in order and at least one, behind `prefix`, in one piece
/// of memory with it; the set of each segment is at its index. Blocks of its store are closed when their documents'
/// bytes exceed `block_size`; those of segments whose documents are all alive stay as they are, without a look at their
/// slots. Too many documents are `Limit` before anything is written.
pub fn merge_behind(
    alloc: Global,
    schema: &Schema,
    block_size: usize,
    segments: &[Segment],
    sets: &[AliveBitSet],
    prefix: Vec<u8>,
) -> Result<Vec<u8>, Fault>
    requires each { length segments.now ≡ length sets.now }
    requires opened { ∥ AreOpened schema.now (zip segments.now sets.now) ∥₁ }
    requires some { 0 < living_count (zip segments.now sets.now) }
    ensures front { IfOk result (λ bytes. take (length prefix.items) bytes.items ≡ prefix.items) }
    ensures known { IfOk result (λ bytes. ∥ IsSegment schema.now (living_count (zip segments.now sets.now))
        (drop (length prefix.items) bytes.items) ∥₁) }
    ensures few { IfOk result (λ _. living_count (zip segments.now sets.now) ≤ max_docs) }
    ensures stands { (analyze : Analyzer) (rows : List alive.Segment)
        → StandFor schema.now analyze (zip segments.now sets.now) rows
        → IfOk result (λ bytes. IsSegmentOf schema.now analyze (live rows) (drop (length prefix.items) bytes.items)) }
    ensures err { IfErr result (λ fault. fault ≢ faults.OutOfMemory → fault ≢ faults.Limit
        → (fault ≡ faults.Damaged None)
        × ((all : List (List (List ℕ))) → ¬ AreHeld (zip segments.now sets.now) all)) }
    ensures limit { (analyze : Analyzer) (rows : List alive.Segment)
        → StandFor schema.now analyze (zip segments.now sets.now) rows
        → IfErr result (λ fault. fault ≢ faults.OutOfMemory → (fault ≡ faults.Limit)
        × DocumentsPass schema.now analyze block_size (live rows)) }
{
    let members = members_of_lists(alloc, segments, sets)?;
    let num_docs = num_living(&members)?;
    merged_bytes(alloc, schema, block_size, &members, num_docs, prefix)
}

/// Like `merge_segments`, but with borrowed members.
fn merge_members(
    alloc: Global,
    schema: &Schema,
    block_size: usize,
    cache_num_blocks: usize,
    members: &[MemberSegment<'_>],
) -> Result<Option<Segment>, Fault>
    requires { ∥ AreOpened schema.now (map member_of members.now) ∥₁ }
    ensures living { IfOk result (λ merged. MatchOption merged (living_count (map member_of members.now) ≡ 0)
        (λ segment. (0 < living_count (map member_of members.now))
        × (num_docs_of segment ≡ living_count (map member_of members.now)))) }
    ensures opened { IfOk result (λ merged. IfSome merged (IsOpened schema.now)) }
    ensures stands { (analyze : Analyzer) (segments : List alive.Segment)
        → StandFor schema.now analyze (map member_of members.now) segments
        → IfOk result (λ merged. MatchOption merged (live segments ≡ [])
        (StandsFor schema.now analyze (live segments))) }
    ensures err { IfErr result (λ fault. fault ≢ faults.OutOfMemory → fault ≢ faults.Limit
        → (fault ≡ faults.Damaged None)
        × ((all : List (List (List ℕ))) → ¬ AreHeld (map member_of members.now) all)) }
    ensures limit { (analyze : Analyzer) (segments : List alive.Segment)
        → StandFor schema.now analyze (map member_of members.now) segments
        → IfErr result (λ fault. fault ≢ faults.OutOfMemory → (fault ≡ faults.Limit)
        × DocumentsPass schema.now analyze block_size (live segments)) }
{
    let num_docs = num_living(members)?;
    if num_docs == 0 {
        return Ok(None);
    }
    let prefix = Vec::new(alloc);
    let bytes = merged_bytes(alloc, schema, block_size, members, num_docs, prefix)?;
    let bytes = Bytes::from_vec(bytes)?;
    let segment = Segment::new(alloc, schema, bytes, cache_num_blocks)?;
    Ok(Some(segment))
}

/// Encodes the segment of the `num_docs` living documents of `members` behind `prefix`.
fn merged_bytes(
    alloc: Global,
    schema: &Schema,
    block_size: usize,
    members: &[MemberSegment<'_>],
    num_docs: u32,
    prefix: Vec<u8>,
) -> Result<Vec<u8>, Fault>
    requires opened { ∥ AreOpened schema.now (map member_of members.now) ∥₁ }
    requires living { num_docs ≡ living_count (map member_of members.now) }
    requires some { 0 < num_docs }
    requires few { num_docs ≤ max_docs }
    ensures front { IfOk result (λ bytes. take (length prefix.items) bytes.items ≡ prefix.items) }
    ensures written { IfOk result (λ bytes. (sections : layout.Sections)
        × AreWritten num_docs sections (drop (length prefix.items) bytes.items)) }
    ensures known { IfOk result (λ bytes. ∥ IsSegment schema.now num_docs (drop (length prefix.items) bytes.items) ∥₁) }
    ensures stands { (analyze : Analyzer) (segments : List alive.Segment)
        → StandFor schema.now analyze (map member_of members.now) segments
        → IfOk result (λ bytes. IsSegmentOf schema.now analyze (live segments)
        (drop (length prefix.items) bytes.items)) }
    ensures err { IfErr result (λ fault. fault ≢ faults.OutOfMemory → fault ≢ faults.Limit
        → (fault ≡ faults.Damaged None)
        × ((all : List (List (List ℕ))) → ¬ AreHeld (map member_of members.now) all)) }
    ensures limit { (analyze : Analyzer) (segments : List alive.Segment)
        → StandFor schema.now analyze (map member_of members.now) segments
        → IfErr result (λ fault. fault ≢ faults.OutOfMemory → (fault ≡ faults.Limit)
        × DocumentsPass schema.now analyze block_size (live segments)) }
{
    let fields = length_fields(alloc, schema)?;
    let norms = merge_lengths(alloc, &fields, members)?;
    let readers = FieldNormReaders::new(&norms, num_docs, &fields);
    let (terms, postings, positions) = merge_terms(alloc, schema, members, &readers)?;
    let sections = Sections {
        terms,
        postings,
        positions,
        norms,
        store: merge_slots(alloc, block_size, members)?,
    };
    Ok(sections.put_behind(prefix, num_docs)?)
}
