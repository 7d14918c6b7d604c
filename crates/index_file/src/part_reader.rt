//! The segments that the parts of a body represent.

ghost use Rattle.std.specs.Prelude.{[], ◌+◌, ◌-◌, ◌<◌, ◌∷◌, ◌≡◌, ◌≢◌, ◌≤◌, IfErr, IfOk, List, MatchOption, OnErr, OnOk, drop, length, map, take, ℕ};
ghost use Rattle.definitions.specs.declared.fault.Fault.TheVariants as faults;
ghost use Rattle.segment.specs.Opened.{IsOpened, bytes_of};
ghost use Rattle.index_file.specs.Parts.{part_of};
ghost use Rattle.index_file.specs.Lists.{member_of};
ghost use Rattle.index_file.specs.Reading.{IsLeft};
ghost use Rattle.index_file.specs.declared.member.Member as code;
ghost use Rattle.segment_definitions.specs.ListBodies as layout;
ghost use Rattle.segment_definitions.specs.ListBodies.{IsMember, IsOfPart};
ghost use Rattle.segment_definitions.specs.Segments.{IsSegment};

use crate::member::Member;
use crate::part::{FRESH_HEAD_BYTES, KEPT_BYTES, Part};
use crate::segment_opener::Opener;
use bytes::Bytes;
use definitions::Fault;
use segment::Segment;
use std::collections::VecDeque;

/// What is left of a body, and of the list before it.
#[derive(Drop)]
pub(crate) struct PartReader<'a> {
    pub(crate) opener: Opener<'a>,
    // The members of the list before that follow the last segment kept.
    pub(crate) before: VecDeque<Member>,
    // The number of members up to it.
    pub(crate) passed: usize,
    // The parts that are left, and what follows them.
    pub(crate) bytes: Bytes,
}

impl PartReader<'_> {
    /// Reads the segment of the next part: takes it from the list before, or opens a new one.
    pub(crate) fn take(&mut self, part: &Part<'_>) -> Result<Segment, Fault>
        requires { (all : List code.Member) × (parts : List layout.Part) × (more : List ℕ)
            × IsLeft all (part_of part.now ∷ parts) more self.old }
        ensures ok { IfOk result (IsOpened self.old.opener.schema.now) }
        ensures part { (all : List code.Member) (parts : List layout.Part) (more : List ℕ)
            → IsLeft all (part_of part.now ∷ parts) more self.old
            → IfOk result (λ segment. IsOfPart (map member_of all) (part_of part.now) (bytes_of segment, [])) }
        ensures left { (all : List code.Member) (parts : List layout.Part) (more : List ℕ)
            → IsLeft all (part_of part.now ∷ parts) more self.old → OnOk result (IsLeft all parts more self.new) }
        ensures err { (all : List code.Member) (parts : List layout.Part) (more : List ℕ)
            → IsLeft all (part_of part.now ∷ parts) more self.old
            → IfErr result (λ fault. fault ≢ faults.OutOfMemory → (m : layout.Member)
            → IsOfPart (map member_of all) (part_of part.now) m
            → ¬ IsMember (IsSegment self.old.opener.schema.now) m) }
        ensures opener { self.new.opener ≡ self.old.opener }
    {
        match *part {
            Part::Kept(index) => self.take_kept(index),
            Part::Fresh(segment) => self.open_fresh(segment.len()),
        }
    }

    /// Takes the segment at `index` of the list before.
    fn take_kept(&mut self, index: u32) -> Result<Segment, Fault>
        requires from { self.old.passed ≤ index }
        requires bytes { 5 ≤ length self.old.bytes }
        ensures ok { IfOk result (λ segment. (m : code.Member) × (m.segment ≡ segment)
            × (drop (index - self.old.passed) self.old.before.items ≡ m ∷ self.new.before.items)) }
        ensures err { OnErr result (length self.old.before.items ≤ index - self.old.passed) }
        ensures passed { self.new.passed ≡ index + 1 }
        ensures rest { self.new.bytes ≡ drop 5 self.old.bytes }
        ensures opener { self.new.opener ≡ self.old.opener }
    {
        let index = index as usize;
        let skipped = index - self.passed;
        self.bytes.advance(KEPT_BYTES);
        self.passed = index + 1;
        match take_at(&mut self.before, skipped) {
            Some(member) => Ok(member.segment),
            None => Err(Fault::Damaged(None)),
        }
    }

    /// Opens a new segment of `len` bytes, which it shares with the body.
    fn open_fresh(&mut self, len: usize) -> Result<Segment, Fault>
        requires { 9 + len ≤ length self.old.bytes }
        ensures ok { IfOk result (IsOpened self.old.opener.schema.now) }
        ensures bytes { IfOk result (λ segment. bytes_of segment ≡ take len (drop 9 self.old.bytes)) }
        ensures rest { OnOk result (self.new.bytes ≡ drop len (drop 9 self.old.bytes)) }
        ensures err { IfErr result (λ fault. fault ≢ faults.OutOfMemory → (num_docs : ℕ)
            → ¬ IsSegment self.old.opener.schema.now num_docs (take len (drop 9 self.old.bytes))) }
        ensures same { (self.new.before.items ≡ self.old.before.items) × (self.new.passed ≡ self.old.passed)
            × (self.new.opener ≡ self.old.opener) }
    {
        self.bytes.advance(FRESH_HEAD_BYTES);
        let segment = self.bytes.split_to(len)?;
        self.opener.open(segment)
    }
}

/// Frees the first `skipped` of `members`, and takes the next one.
fn take_at(members: &mut VecDeque<Member>, skipped: usize) -> Option<Member>
    ensures { MatchOption result (length members.old.items ≤ skipped)
        (λ m. drop skipped members.old.items ≡ m ∷ members.new.items) }
{
    for _i in 0..skipped {
        members.pop_front();
    }
    members.pop_front()
}
