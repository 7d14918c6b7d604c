//! The encoder of bodies that list segments.

ghost use Rattle.std.specs.Prelude.{◌++◌, ◌∷◌, ◌≡◌, ◌≤◌, IfOk, List, OnOk, drop, flat_map, length, take, ℕ};
ghost use Rattle.definitions.specs.NumberCodes.{u32_bytes};
ghost use Rattle.layouts.specs.AliveSets.{alive_bytes};
ghost use Rattle.index_file.specs.Frames.{frame_bytes};
ghost use Rattle.index_file.specs.FreshPlaces.{StandsAt, begun_fresh};
ghost use Rattle.segment_definitions.specs.ListBodies.{fresh, kept, part_bytes};

use crate::frame::{LENGTH_BYTES, finish_frame, overwrite, start_frame};
use crate::fresh_place::FreshPlace;
use common::{AliveBitSet, put_u32, put_u64};
use std::alloc::{AllocError, Global};
use std::marker::Model;

/// An encoder of a body, within the frame that is written of it.
#[derive(Drop)]
pub struct SegmentsBodyWriter {
    alloc: Global,
    // Eight bytes of room for the body's length, and the body.
    frame: Vec<u8>,
}

impl Model for SegmentsBodyWriter {
    ghost use Rattle.std.specs.Prelude.{◌≤◌, List, drop, length, ℕ};

    ghost Value = { List ℕ };

    ghost view = { λ body. drop 8 body.frame.items };

    ghost invariant = { λ body. 8 ≤ length body.frame.items };
}

impl SegmentsBodyWriter {
    /// Starts a body of `num_segments` segments: byte 2 and their number.
    pub fn begin(alloc: Global, num_segments: u32) -> Result<SegmentsBodyWriter, AllocError>
        ensures { IfOk result (λ body. body ≡ 2 ∷ u32_bytes num_segments) }
    {
        let mut frame = start_frame(alloc)?;
        frame.push(2)?;
        put_u32(&mut frame, num_segments)?;
        Ok(SegmentsBodyWriter { alloc, frame })
    }

    /// Appends a segment of the list before, by its index there: code 0 and the index.
    pub fn put_kept(&mut self, index: u32) -> Result<(), AllocError>
        ensures { OnOk result (self.new ≡ self.old ++ part_bytes (kept index)) }
    {
        self.frame.push(0)?;
        put_u32(&mut self.frame, index)
    }

    /// Appends a new segment: code 1, its length and its bytes. Returns where it stands.
    pub fn put_fresh(&mut self, segment: &[u8]) -> Result<FreshPlace, AllocError>
        ensures put { OnOk result (self.new ≡ self.old ++ part_bytes (fresh segment.now)) }
        ensures place { IfOk result (StandsAt self.new segment.now) }
    {
        self.frame.reserve(segment.len().saturating_add(9))?;
        self.frame.push(1)?;
        put_u64(&mut self.frame, segment.len() as u64)?;
        let start = self.frame.len() - LENGTH_BYTES;
        self.frame.extend_from_slice(segment)?;
        let end = self.frame.len() - LENGTH_BYTES;
        Ok(FreshPlace { start, end })
    }

    /// Begins a new segment: code 1, and room for its length. Returns the frame so far; the segment is encoded behind it,
    /// and then `end_fresh` goes on.
    pub fn begin_fresh(self) -> Result<Vec<u8>, AllocError>
        ensures room { IfOk result (λ frame. 17 ≤ length frame.items) }
        ensures begun { IfOk result (λ frame. drop 8 frame.items ≡ begun_fresh self) }
    {
        let SegmentsBodyWriter { mut frame, .. } = self;
        frame.push(1)?;
        put_u64(&mut frame, 0)?;
        Ok(frame)
    }

    /// Ends a new segment, which `frame` holds from `start` on: writes its length. Returns the body so far, and where the
    /// segment stands in it.
    pub fn end_fresh(
        alloc: Global,
        frame: Vec<u8>,
        start: usize,
    ) -> (SegmentsBodyWriter, FreshPlace)
        requires room { 17 ≤ start }
        requires within { start ≤ length frame.items }
        ensures put { (before : List ℕ) → drop 8 (take start frame.items) ≡ begun_fresh before
            → result.0 ≡ before ++ part_bytes (fresh (drop start frame.items)) }
        ensures place { StandsAt result.0 (drop start frame.items) result.1 }
    {
        let mut frame = frame;
        let length = (frame.len() - start) as u64;
        overwrite(&mut frame, start - LENGTH_BYTES, &u64::to_le_bytes(length));
        let range = FreshPlace {
            start: start - LENGTH_BYTES,
            end: frame.len() - LENGTH_BYTES,
        };
        (SegmentsBodyWriter { alloc, frame }, range)
    }

    /// Appends the alive set of each segment.
    pub fn put_sets(&mut self, alive: &[AliveBitSet]) -> Result<(), AllocError>
        ensures { OnOk result (self.new ≡ self.old ++ flat_map alive_bytes alive.now) }
    {
        put_sets(self.alloc, &mut self.frame, alive)
    }

    /// Returns the frame of the body.
    pub fn finish(self) -> Result<Vec<u8>, AllocError>
        ensures { IfOk result (λ frame. frame.items ≡ frame_bytes self) }
    {
        let SegmentsBodyWriter { mut frame, .. } = self;
        finish_frame(&mut frame)?;
        Ok(frame)
    }
}

/// Appends alive sets, one after another.
fn put_sets(alloc: Global, out: &mut Vec<u8>, alive: &[AliveBitSet]) -> Result<(), AllocError>
    ensures ok { OnOk result (out.new.items ≡ out.old.items ++ flat_map alive_bytes alive.now) }
    ensures no_shorter { length out.old.items ≤ length out.new.items }
{
    for set in alive {
        out.extend_from_slice(&set.to_bytes(alloc)?)?;
    }
    Ok(())
}
