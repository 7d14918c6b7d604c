//! The record of a merge, laid out in memory.

ghost use Rattle.std.specs.Prelude.{[], ◌<◌, ◌≡◌, ◌≢◌, ◌≤◌, IfErr, IfOk, IfSome, List, MatchOption, None, drop, length, map, option_to_list, sum_by, take, ◌-◌, ℕ};
ghost use Rattle.definitions.specs.Calls as calls;
ghost use Rattle.definitions.specs.declared.fault.Fault.TheVariants as faults;
ghost use Rattle.common.specs.BitSets.{count_set};
ghost use Rattle.index_file.specs.Frames.{frame_bytes};
ghost use Rattle.segment.specs.Opened.{IsOpened, StandsFor, bytes_of};
ghost use Rattle.segment_definitions.specs.ListBodies.{segments_body};
ghost use Rattle.index_state.specs.Bodies.{merged_parts};
ghost use Rattle.index_state.specs.Merges.{all_alive, new_flags};
ghost use Rattle.index_state.specs.NewSegments.{IsKnownIn, segment_in};

use crate::commit_frame::{framed, put_kept};
use crate::index_state::IndexState;
use crate::living_counts::count_alive;
use crate::merged_alive_sets::merged_sets;
use crate::new_segments::{NewSegment, open_new};
use crate::prepared_merge::PreparedMerge;
use bytes::Bytes;
use common::Analyzer;
use definitions::Fault;
use index_file::SegmentsBodyWriter;
use schema::Schema;
use segment::{Segment, merge_behind};
use std::alloc::{AllocError, Global};

impl<A: Analyzer + Drop> IndexState<A> {
    ghost use Rattle.index_state.specs.Merges.{MergePasses, joined_groups, merge_frame_in, new_in, replaced, sets_merged};
    ghost use Rattle.index_state.specs.NewSegments.{AreKnown, ArePut, IsNew};
    ghost use Rattle.index_state.specs.Standing.{Stands, alive_of, analyzer_of, schema_of};

    /// Lays out the record of a merge of the committed segments `from..to`: a segment of their living documents, if there
    /// are any, is encoded where it stands in the record, and opened over its bytes there.
    pub(crate) fn merge_record(&self, from: usize, to: usize) -> Result<PreparedMerge, Fault>
        requires some { from < to }
        requires within { to ≤ length (alive_of self.now) }
        ensures range { IfOk result (λ prepared. (prepared.from ≡ from) × (prepared.to ≡ to)) }
        ensures opened { IfOk result (λ prepared. IfSome prepared.segment (IsOpened (schema_of self.now))) }
        ensures of { (c : calls.Configuration) (x : calls.Index) → Stands A.analyze self.now c x
            → IfOk result (λ prepared. MatchOption prepared.segment (joined_groups from to x.state.groups ≡ [])
            (StandsFor (schema_of self.now) (A.analyze (analyzer_of self.now))
            (joined_groups from to x.state.groups))) }
        ensures sets { IfOk result (λ prepared. sets_merged prepared
            ≡ replaced from to (map all_alive (new_in prepared)) (alive_of self.now)) }
        ensures frame { IfOk result (λ prepared. merge_frame_in prepared ≡ frame_bytes (segments_body
            (merged_parts (length (alive_of self.now)) from to (map bytes_of (new_in prepared)))
            (sets_merged prepared))) }
        ensures fault { IfErr result (λ fault. fault ≢ faults.Device) }
        ensures faults { IfErr result (λ fault. fault ≢ faults.OutOfMemory → fault ≢ faults.Limit
            → fault ≡ faults.Damaged None) }
        ensures limit { (c : calls.Configuration) (x : calls.Index) → Stands A.analyze self.now c x
            → IfErr result (λ fault. fault ≢ faults.OutOfMemory → (fault ≡ faults.Limit)
            × MergePasses A.analyze self.now from to x.state.groups) }
    {
        let num_committed = self.alive.len();
        let num_living = count_alive(&self.alive[from..to]);
        let num_segments = from + usize::from(num_living > 0) + (num_committed - to);
        let mut body = SegmentsBodyWriter::begin(self.alloc, num_segments as u32)?;
        put_kept(&mut body, 0, from)?;
        let (mut body, new) = self.put_merged(from, to, num_living, body)?;
        put_kept(&mut body, to, num_committed)?;
        let alive = merged_sets(self.alloc, &self.alive, from, to, &new)?;
        let frame = Bytes::from_vec(framed(body, &alive)?)?;
        let cache_num_blocks = self.settings.cache_blocks() as usize;
        let segment = open_if_any(self.alloc, &self.schema, cache_num_blocks, &frame, &new)?;
        Ok(PreparedMerge {
            frame,
            segment,
            from,
            to,
            alive,
        })
    }

    /// Encodes the segment of the `num_living` living documents of the segments `from..to`, if there are any, as a new one
    /// behind `body`, which is returned with it.
    fn put_merged(
        &self,
        from: usize,
        to: usize,
        num_living: u64,
        body: SegmentsBodyWriter,
    ) -> Result<(SegmentsBodyWriter, Option<NewSegment>), Fault>
        requires some { from < to }
        requires within { to ≤ length (alive_of self.now) }
        requires living { num_living ≡ sum_by count_set (take (to - from) (drop from (alive_of self.now))) }
        ensures put { IfOk result (λ put. ArePut body put.0 (option_to_list put.1)) }
        ensures known { IfOk result (λ put. ∥ AreKnown (schema_of self.now) put.0 (option_to_list put.1) ∥₁) }
        ensures one { IfOk result (λ put. MatchOption put.1 (num_living ≡ 0) (λ new. 0 < num_living)) }
        ensures of { (c : calls.Configuration) (x : calls.Index) → Stands A.analyze self.now c x
            → IfOk result (λ put. MatchOption put.1 (joined_groups from to x.state.groups ≡ [])
            (IsNew (schema_of self.now) (A.analyze (analyzer_of self.now)) put.0
            (joined_groups from to x.state.groups))) }
        ensures fault { IfErr result (λ fault. fault ≢ faults.Device) }
        ensures faults { IfErr result (λ fault. fault ≢ faults.OutOfMemory → fault ≢ faults.Limit
            → fault ≡ faults.Damaged None) }
        ensures limit { (c : calls.Configuration) (x : calls.Index) → Stands A.analyze self.now c x
            → IfErr result (λ fault. fault ≢ faults.OutOfMemory → (fault ≡ faults.Limit)
            × MergePasses A.analyze self.now from to x.state.groups) }
    {
        if num_living == 0 {
            return Ok((body, None));
        }
        let prefix = body.begin_fresh()?;
        let start = prefix.len();
        let frame = merge_behind(
            self.alloc,
            &self.schema,
            self.settings.block_size() as usize,
            &self.segments[from..to],
            &self.alive[from..to],
            prefix,
        )?;
        let (body, range) = SegmentsBodyWriter::end_fresh(self.alloc, frame, start);
        let num_docs = num_living as u32;
        Ok((body, Some(NewSegment { range, num_docs })))
    }
}

/// Opens the new segment, if there is one, over its bytes in `frame`.
fn open_if_any(
    alloc: Global,
    schema: &Schema,
    cache_num_blocks: usize,
    frame: &Bytes,
    new: &Option<NewSegment>,
) -> Result<Option<Segment>, AllocError>
    requires known { IfSome new.now (λ new. ∥ IsKnownIn schema.now frame.now new ∥₁) }
    ensures opened { IfOk result (λ segment. IfSome segment (IsOpened schema.now)) }
    ensures bytes { IfOk result (λ segment. map bytes_of (option_to_list segment)
        ≡ map (segment_in frame.now) (option_to_list new.now)) }
    ensures counted { IfOk result (λ segment. map all_alive (option_to_list segment) ≡ new_flags new.now) }
{
    let Some(new) = new else {
        return Ok(None);
    };
    let segment = open_new(alloc, schema, cache_num_blocks, frame, new)?;
    Ok(Some(segment))
}
