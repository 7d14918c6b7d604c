//! Counts and positions of several cursors over postings together, in one document.

ghost use Rattle.std.specs.Prelude.{◌++◌, ◌+◌, ◌<◌, ◌≡◌, ◌≤◌, IfOk, OnErr, OnOk, is_some, length, map, min, sum, vec_capacity};
ghost use Rattle.docsets.specs.Entries.{first, highest};
ghost use Rattle.definitions.specs.Postings.{terminated};
ghost use Rattle.docsets.specs.Distinct.{distinct};
ghost use Rattle.docsets.specs.Members.{entries_at, entries_of, least};
ghost use Rattle.scorers.specs.UnitedRoom.{HasRoom};
ghost use Rattle.scorers.specs.Uniting.{counts_in, most_sum, positions_in, told_positions};

use crate::distinct_positions::{join, sort_once};
use common::DocId;
use docsets::Postings;
use std::alloc::{AllocError, Global};

/// Buffers for the positions of one cursor, and for those of several together.
#[derive(Drop)]
pub(crate) struct PositionRoom {
    one: Vec<u32>,
    all: Vec<u32>,
}

impl PositionRoom {
    /// Allocates room for `most` positions in each.
    pub(crate) fn new(alloc: Global, most: usize) -> Result<PositionRoom, AllocError>
        ensures room { IfOk result (λ room. (vec_capacity room.one ≡ most) × (vec_capacity room.all ≡ most)) }
        ensures fits { IfOk result (λ room. most < 9223372036854775808) }
    {
        let one = Vec::with_capacity(alloc, most)?;
        let all = Vec::with_capacity(alloc, most)?;
        Ok(PositionRoom { one, all })
    }

    /// Returns the number of positions for which there is room.
    pub(crate) fn most(&self) -> usize
        ensures { result ≡ vec_capacity self.now.all }
    {
        self.all.capacity()
    }
}

/// Returns how often the term of `docset` occurs in `doc`.
#[inline]
fn freq_on<P: Postings>(docset: &P, doc: DocId) -> u32
    requires leads { doc ≤ first (P.entries docset.now) }
    requires on { doc < terminated }
    ensures { result ≡ sum (counts_in (entries_of doc (P.entries docset.now))) }
{
    if docset.doc() == doc {
        return docset.term_freq();
    }
    0
}

/// Returns how often the terms of `docsets` occur in `doc`, added up.
pub(crate) fn freq_at<P: Postings>(docsets: &Vec<P>, doc: DocId) -> u32
    requires leads { doc ≤ least (map P.entries docsets.now.items) }
    requires on { doc < terminated }
    requires fits { sum (counts_in (entries_at doc (map P.entries docsets.now.items))) ≤ 4294967295 }
    ensures { result ≡ sum (counts_in (entries_at doc (map P.entries docsets.now.items))) }
{
    let mut freq = 0;
    for i in 0..docsets.len() {
        freq += freq_on(&docsets[i], doc);
    }
    freq
}

/// Appends the positions of `docset` in `doc`, each plus `offset`, to `all`. There is room.
fn take_positions<P: Postings>(
    docset: &mut P,
    doc: DocId,
    offset: u32,
    one: &mut Vec<u32>,
    all: &mut Vec<u32>,
)
    requires leads { doc ≤ first (P.entries docset.old) }
    requires on { doc < terminated }
    requires fits { highest (positions_in (entries_of doc (P.entries docset.old))) + offset ≤ 4294967295 }
    requires room { length (positions_in (entries_of doc (P.entries docset.old))) ≤ vec_capacity one.old }
    requires room_for_all { length all.old.items + length (positions_in (entries_of doc (P.entries docset.old)))
        ≤ vec_capacity all.old }
    ensures same { P.entries docset.new ≡ P.entries docset.old }
    ensures taken { all.new.items
        ≡ all.old.items ++ map (λ p. p + offset) (positions_in (entries_of doc (P.entries docset.old))) }
    ensures one_kept { vec_capacity one.old ≤ vec_capacity one.new }
    ensures all_kept { vec_capacity all.old ≤ vec_capacity all.new }
{
    if docset.doc() != doc {
        return;
    }
    let _ = docset.positions_with_offset(offset, one);
    let _ = all.extend_from_slice(one);
}

/// Gathers the positions of `docsets` in `doc`, each plus `offset`, in `all`. There is room.
pub(crate) fn gather_positions<P: Postings>(
    docsets: &mut Vec<P>,
    doc: DocId,
    offset: u32,
    one: &mut Vec<u32>,
    all: &mut Vec<u32>,
)
    requires leads { doc ≤ least (map P.entries docsets.old.items) }
    requires on { doc < terminated }
    requires fits { highest (positions_in (entries_at doc (map P.entries docsets.old.items))) + offset ≤ 4294967295 }
    requires room { most_sum (map P.entries docsets.old.items) ≤ vec_capacity one.old }
    requires room_for_all { most_sum (map P.entries docsets.old.items) ≤ vec_capacity all.old }
    ensures same { map P.entries docsets.new.items ≡ map P.entries docsets.old.items }
    ensures taken { all.new.items
        ≡ map (λ p. p + offset) (positions_in (entries_at doc (map P.entries docsets.old.items))) }
    ensures one_kept { vec_capacity one.old ≤ vec_capacity one.new }
    ensures all_kept { vec_capacity all.old ≤ vec_capacity all.new }
{
    all.clear();
    for i in 0..docsets.len() {
        take_positions(&mut docsets[i], doc, offset, one, all);
    }
}

/// Adds the positions of `docsets` in `doc`, each plus `offset`, to `output`, ascending and each once; none if `room`
/// is `None`.
pub(crate) fn append_united<P: Postings>(
    docsets: &mut Vec<P>,
    doc: DocId,
    offset: u32,
    room: &mut Option<PositionRoom>,
    output: &mut Vec<u32>,
) -> Result<(), AllocError>
    requires leads { doc ≤ least (map P.entries docsets.old.items) }
    requires on { doc < terminated }
    requires fits { highest (told_positions (is_some room.old) (entries_at doc (map P.entries docsets.old.items)))
        + offset ≤ 4294967295 }
    requires room { HasRoom room.old (map P.entries docsets.old.items) }
    ensures same { map P.entries docsets.new.items ≡ map P.entries docsets.old.items }
    ensures told { is_some room.new ≡ is_some room.old }
    ensures kept { HasRoom room.new (map P.entries docsets.new.items) }
    ensures ok { OnOk result (output.new.items ≡ distinct (output.old.items ++ map (λ p. p + offset)
        (told_positions (is_some room.old) (entries_at doc (map P.entries docsets.old.items))))) }
    ensures err { OnErr result (output.new.items ≡ output.old.items) }
    ensures full { OnErr result (vec_capacity output.old < length (distinct (output.old.items ++ map (λ p. p + offset)
        (told_positions (is_some room.old) (entries_at doc (map P.entries docsets.old.items)))))) }
    ensures output { vec_capacity output.old ≤ vec_capacity output.new }
{
    let Some(room) = room else {
        sort_once(output);
        return Ok(());
    };
    gather_positions(docsets, doc, offset, &mut room.one, &mut room.all);
    join(output, &mut room.all)?;
    Ok(())
}

/// Returns an upper bound of the number of positions that `docsets` together have in a document; the greatest number
/// if that many don't fit it, and then no room is granted.
pub(crate) fn most_together<P: Postings>(docsets: &Vec<P>) -> usize
    ensures { min (most_sum (map P.entries docsets.now.items)) 18446744073709551615 ≤ result }
{
    let mut most = 0usize;
    for i in 0..docsets.len() {
        most = most.saturating_add(docsets[i].most_positions());
    }
    most
}
