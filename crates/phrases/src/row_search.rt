//! A search of rows by their documents.

ghost use Rattle.std.specs.Prelude.{◌<◌, ◌≡◌, ◌≤◌, length, slice_index, vec_capacity, ℕ};
ghost use Rattle.phrases.specs.Places.{Rises};
ghost use Rattle.phrases.specs.Rows.{docs_of};

use crate::row::Row;
use crate::window::MOST_ROWS;
use common::DocId;

/// The number of rows that are looked at one by one.
const NEAR: usize = 16;

/// Returns the document of the row at `index`.
#[inline]
pub(crate) fn doc_at(rows: &[Row], index: usize) -> DocId
    requires { index < length rows.now }
    ensures { result ≡ slice_index (docs_of rows.now) index }
{
    rows[index].doc
}

/// Returns the index of the first row from `start` and before `end` whose document is >= `doc`, or `end`.
#[inline]
pub(crate) fn first_row(rows: &[Row], start: usize, end: usize, doc: DocId) -> usize
    requires order { start ≤ end }
    requires within { end ≤ length rows.now }
    ensures from { start ≤ result }
    ensures to { result ≤ end }
    ensures passed { (k : ℕ) → start ≤ k → k < result → slice_index (docs_of rows.now) k < doc }
    ensures found { result < end → doc ≤ slice_index (docs_of rows.now) result }
{
    for index in start..end {
        if doc <= doc_at(rows, index) {
            return index;
        }
    }
    end
}

/// Returns the number of bits by which documents are shifted, so that about one row falls to each number.
pub(crate) fn shift_of(rows: &[Row]) -> u32
    ensures { result < 32 }
{
    if rows.is_empty() {
        return 0;
    }
    let last = doc_at(rows, rows.len() - 1);
    let gap = u64::from(last.saturating_sub(doc_at(rows, 0))) / rows.len() as u64;
    (64 - gap.leading_zeros()) % 32
}

/// Replaces `guesses` with those for a search, one for each shifted distance from the first row.
pub(crate) fn note_guesses(rows: &[Row], shift: u32, guesses: &mut Vec<u32>)
    requires few { length rows.now ≤ 4096 }
    requires shift { shift < 32 }
    requires room { length rows.now ≤ vec_capacity guesses.old }
    ensures { vec_capacity guesses.new ≡ vec_capacity guesses.old }
{
    guesses.clear();
    if rows.is_empty() {
        return;
    }
    let mut limit = doc_at(rows, 0);
    let mut index = 0;
    for _i in 0..rows.len() {
        index = first_row(rows, index, rows.len(), limit);
        guesses.push_reserved(index as u32);
        limit = limit.saturating_add(1 << shift);
    }
}

/// Returns an index before which all rows are below `doc`.
#[inline]
fn guess(rows: &[Row], guesses: &[u32], shift: u32, doc: DocId) -> usize
    requires some { 0 < length rows.now }
    requires rises { Rises 0 (docs_of rows.now) }
    requires shift { shift < 32 }
    ensures to { result ≤ length rows.now }
    ensures passed { (k : ℕ) → k < result → slice_index (docs_of rows.now) k < doc }
{
    if guesses.is_empty() {
        return 0;
    }
    let at = (doc.saturating_sub(doc_at(rows, 0)) >> shift) as usize;
    let index = guesses[at.min(guesses.len() - 1)] as usize;
    if index == 0 || index > rows.len() || doc_at(rows, index - 1) >= doc {
        return 0;
    }
    index
}

/// Returns an index >= `start` before which all rows are below `doc`; fewer than `NEAR` of those after it are.
fn pass_rows(rows: &[Row], start: usize, doc: DocId) -> usize
    requires rises { Rises 0 (docs_of rows.now) }
    requires start { start ≤ length rows.now }
    requires passed { (k : ℕ) → k < start → slice_index (docs_of rows.now) k < doc }
    ensures to { result ≤ length rows.now }
    ensures passed { (k : ℕ) → k < result → slice_index (docs_of rows.now) k < doc }
{
    let mut index = start;
    // By halves, so that rows close together beside a few far ones aren't looked at one by one.
    let mut step = MOST_ROWS / 2;
    while step >= NEAR {
        if step <= rows.len() - index && doc_at(rows, index + step - 1) < doc {
            index += step;
        }
        step /= 2;
    }
    index
}

/// Returns the index of the first row whose document is >= `doc`, or the number of rows.
#[inline]
pub(crate) fn find_row(rows: &[Row], guesses: &[u32], shift: u32, doc: DocId) -> usize
    requires some { 0 < length rows.now }
    requires rises { Rises 0 (docs_of rows.now) }
    requires shift { shift < 32 }
    ensures to { result ≤ length rows.now }
    ensures passed { (k : ℕ) → k < result → slice_index (docs_of rows.now) k < doc }
    ensures found { result < length rows.now → doc ≤ slice_index (docs_of rows.now) result }
{
    let start = guess(rows, guesses, shift, doc);
    let near = rows.len().min(start + NEAR);
    let index = first_row(rows, start, near, doc);
    if index < near {
        return index;
    }
    first_row(rows, pass_rows(rows, index, doc), rows.len(), doc)
}
