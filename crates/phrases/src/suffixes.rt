//! The terms that may follow a phrase.

ghost use Rattle.std.specs.Prelude.{[], ◌+◌, ◌<◌, ◌≡◌, ◌≤◌, length, map, vec_capacity, ℕ};
ghost use Rattle.docsets.specs.Entries.{first, first_positions, from, most_positions, single};
ghost use Rattle.definitions.specs.Postings.{terminated};
ghost use Rattle.docsets.specs.Members.{entries_of};
ghost use Rattle.phrases.specs.Places.{Ascends, Rises};
ghost use Rattle.phrases.specs.PrefixEntries.{continued_by, most_suffix_positions};
ghost use Rattle.phrases.specs.Rows.{AreRows, IsRow, added, added_one, docs_of, end_of, most_count};

use crate::row::Row;
use crate::row_search::{doc_at, find_row};
use crate::shared_positions::count_continued;
use common::DocId;
use docsets::{DocSet, Postings};

/// The distance to a target below which a suffix of one document moves by steps; for more documents it is divided by
/// their number.
const STEPS: u32 = 524288;

/// Replaces the content of `output`, which has the room, with the positions in the current document.
pub(crate) fn read_positions<P: Postings>(postings: &mut P, output: &mut Vec<u32>)
    requires on { first (P.entries postings.old) < terminated }
    requires room { length (single (first_positions (P.entries postings.old))) ≤ vec_capacity output.old }
    ensures same { P.entries postings.new ≡ P.entries postings.old }
    ensures items { output.new.items ≡ single (first_positions (P.entries postings.old)) }
    ensures room { vec_capacity output.old ≤ vec_capacity output.new }
{
    let _ = postings.positions(output);
}

/// Counts those of `places` at which, shifted by `moved`, `suffix` occurs in `doc`; none if it hasn't `doc`.
/// The position of the whole terms plus `moved` is compared, so the positions of the suffix are left as they are read.
#[inline]
fn count_suffix<P: Postings>(
    suffix: &mut P,
    doc: DocId,
    places: &[u32],
    moved: u32,
    positions: &mut Vec<u32>,
) -> u64
    requires leads { doc ≤ first (P.entries suffix.old) }
    requires on { doc < terminated }
    requires places { Ascends 0 places.now }
    requires room { most_positions (P.entries suffix.old) ≤ vec_capacity positions.old }
    ensures same { P.entries suffix.new ≡ P.entries suffix.old }
    ensures count { result ≡ continued_by moved places.now (entries_of doc (P.entries suffix.old)) }
    ensures few { result ≤ length places.now }
    ensures room { vec_capacity positions.old ≤ vec_capacity positions.new }
{
    if suffix.doc() != doc {
        return 0;
    }
    read_positions(suffix, positions);
    count_continued(places, moved, positions) as u64
}

/// Moves `suffix` on, no further than to its first document >= `target`: by a step if the target is near.
#[inline]
fn step_to<P: Postings>(suffix: &mut P, doc: DocId, target: DocId, near: u32) -> DocId
    requires at { doc ≡ first (P.entries suffix.old) }
    requires ahead { doc < target }
    requires small { target < terminated }
    ensures rest { from target (P.entries suffix.new) ≡ from target (P.entries suffix.old) }
    ensures later { doc < result }
    ensures at { result ≡ first (P.entries suffix.new) }
    ensures most { most_positions (P.entries suffix.new) ≤ most_positions (P.entries suffix.old) }
{
    if target - doc < near {
        return suffix.advance();
    }
    suffix.seek(target)
}

/// Adds to `row` how often `suffix` follows it, if `suffix` has its document, and moves `suffix` on.
#[inline]
fn visit_row<P: Postings>(
    suffix: &mut P,
    row: &mut Row,
    doc: DocId,
    near: u32,
    places: &[u32],
    moved: u32,
    positions: &mut Vec<u32>,
) -> DocId
    requires at { doc ≡ first (P.entries suffix.old) }
    requires ahead { doc ≤ row.old.doc }
    requires row { IsRow places.now row.old }
    requires fits { (added_one moved places.now (P.entries suffix.old) row.old).count ≤ 18446744073709551615 }
    requires room { most_positions (P.entries suffix.old) ≤ vec_capacity positions.old }
    ensures added { added_one moved places.now (P.entries suffix.new) row.new
        ≡ added_one moved places.now (P.entries suffix.old) row.old }
    ensures doc { row.new.doc ≡ row.old.doc }
    ensures row { IsRow places.now row.new }
    ensures rest { from (row.old.doc + 1) (P.entries suffix.new) ≡ from (row.old.doc + 1) (P.entries suffix.old) }
    ensures later { doc < result }
    ensures at { result ≡ first (P.entries suffix.new) }
    ensures most { most_positions (P.entries suffix.new) ≤ most_positions (P.entries suffix.old) }
    ensures room { vec_capacity positions.old ≤ vec_capacity positions.new }
{
    if doc < row.doc {
        return step_to(suffix, doc, row.doc, near);
    }
    let begin = row.begin as usize;
    let here = &places[begin..begin + row.num_places as usize];
    let count = count_suffix(suffix, doc, here, moved, positions);
    row.count += count;
    suffix.advance()
}

/// Adds to each row how often `suffix` follows it, and moves `suffix` past all rows.
fn add_suffix<P: Postings>(
    suffix: &mut P,
    rows: &mut Vec<Row>,
    guesses: &[u32],
    shift: u32,
    places: &[u32],
    moved: u32,
    positions: &mut Vec<u32>,
)
    requires some { 0 < length rows.old.items }
    requires rows { AreRows places.now rows.old.items }
    requires rises { Rises 0 (docs_of rows.old.items) }
    requires shift { shift < 32 }
    requires counts { most_count rows.old.items + 4294967295 ≤ 18446744073709551615 }
    requires room { most_positions (P.entries suffix.old) ≤ vec_capacity positions.old }
    ensures added { rows.new.items ≡ map (added_one moved places.now (P.entries suffix.old)) rows.old.items }
    ensures rest { P.entries suffix.new ≡ from (end_of (docs_of rows.old.items)) (P.entries suffix.old) }
    ensures room { vec_capacity positions.old ≤ vec_capacity positions.new }
    ensures rows_room { vec_capacity rows.new ≡ vec_capacity rows.old }
{
    let mut doc = suffix.doc();
    if doc_at(rows, rows.len() - 1) < doc {
        return;
    }
    let near = STEPS / suffix.size_hint().max(1);
    let mut index = find_row(rows, guesses, shift, doc);
    while index < rows.len() {
        doc = visit_row(
            suffix,
            &mut rows[index],
            doc,
            near,
            places,
            moved,
            positions,
        );
        index = find_row(rows, guesses, shift, doc);
    }
}

/// Adds to each row how often `suffixes` follow it.
pub(crate) fn add_suffixes<P: Postings>(
    suffixes: &mut Vec<P>,
    rows: &mut Vec<Row>,
    guesses: &[u32],
    shift: u32,
    places: &[u32],
    moved: u32,
    positions: &mut Vec<u32>,
)
    requires some { 0 < length rows.old.items }
    requires rows { AreRows places.now rows.old.items }
    requires rises { Rises 0 (docs_of rows.old.items) }
    requires shift { shift < 32 }
    requires fresh { most_count rows.old.items ≡ 0 }
    requires few_suffixes { length suffixes.old.items < 4294967296 }
    requires room { most_suffix_positions (map P.entries suffixes.old.items) ≤ vec_capacity positions.old }
    ensures added { rows.new.items ≡ map (added moved places.now (map P.entries suffixes.old.items)) rows.old.items }
    ensures rest { map P.entries suffixes.new.items
        ≡ map (from (end_of (docs_of rows.old.items))) (map P.entries suffixes.old.items) }
    ensures room { vec_capacity positions.old ≤ vec_capacity positions.new }
    ensures rows_room { vec_capacity rows.new ≡ vec_capacity rows.old }
{
    for i in 0..suffixes.len() {
        add_suffix(
            &mut suffixes[i],
            rows,
            guesses,
            shift,
            places,
            moved,
            positions,
        );
    }
}
