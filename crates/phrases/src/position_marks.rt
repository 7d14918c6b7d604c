//! Positions that two terms share, found by marks: a position is looked up at once, where a merge takes turns.

ghost use Rattle.std.specs.Prelude.{◌<◌, ◌≡◌, false, filter, length, slice_index, slice_index_or, true, vec_capacity, ℕ};
ghost use Rattle.phrases.specs.Places.{Ascends, has};

use crate::shared_positions::{intersection, keep_among};
use std::alloc::{AllocError, Global};

/// The most positions of two terms that are merged: marks pay only where there are more.
const MERGED: usize = 16;

/// The most positions that are each compared with each of a few others.
const MOST_KEPT: usize = 8;

/// The most of these others. The compiler writes out all comparisons.
const MOST_COMPARED: usize = 4;

/// A mark for each position below a limit, none of which is set.
#[derive(Drop)]
pub(crate) struct Marks {
    marks: Vec<bool>,
    ghost clear: { (p : ℕ) → slice_index_or marks.items p false ≡ false },
}

impl Marks {
    /// Returns marks of the positions below `limit`, none of which is set.
    pub(crate) fn new(alloc: Global, limit: usize) -> Result<Marks, AllocError> {
        Ok(Marks {
            marks: vec![in alloc; false; limit]?,
        })
    }

    /// Removes from `left` the positions that aren't in `right`; both ascend. Each is compared with each if they are
    /// few; marks are used if they are many and all below the limit; else they are merged.
    pub(crate) fn keep_shared(&mut self, left: &mut Vec<u32>, right: &[u32])
        requires left { Ascends 0 left.old.items }
        requires right { Ascends 0 right.now }
        ensures items { left.new.items ≡ filter (has right.now) left.old.items }
        ensures room { vec_capacity left.new ≡ vec_capacity left.old }
    {
        keep_shared(left, right, &mut self.marks);
    }
}

/// Whether all of `positions`, which ascend, are below `limit`.
fn are_below(positions: &[u32], limit: usize) -> bool
    requires { Ascends 0 positions.now }
    ensures { result ≡ true → (k : ℕ) → k < length positions.now → slice_index positions.now k < limit }
{
    positions.is_empty() || (positions[positions.len() - 1] as usize) < limit
}

/// Marks `positions`.
fn mark(positions: &[u32], marks: &mut [bool])
    requires below { (k : ℕ) → k < length positions.now → slice_index positions.now k < length marks.old }
    requires clear { (p : ℕ) → slice_index_or marks.old p false ≡ false }
    ensures { (p : ℕ) → slice_index_or marks.new p false ≡ has positions.now p }
{
    for i in 0..positions.len() {
        marks[positions[i] as usize] = true;
    }
}

/// Clears the marks of `positions`, where no other is marked.
fn clear(positions: &[u32], marks: &mut [bool])
    requires below { (k : ℕ) → k < length positions.now → slice_index positions.now k < length marks.old }
    requires marked { (p : ℕ) → slice_index_or marks.old p false ≡ has positions.now p }
    ensures { (p : ℕ) → slice_index_or marks.new p false ≡ false }
{
    for i in 0..positions.len() {
        marks[positions[i] as usize] = false;
    }
}

/// Removes from `positions` those that aren't marked.
fn keep_marked(positions: &mut Vec<u32>, marks: &[bool])
    requires below { (k : ℕ) → k < length positions.old.items → slice_index positions.old.items k < length marks.now }
    ensures items { positions.new.items ≡ filter (λ p. slice_index_or marks.now p false) positions.old.items }
    ensures room { vec_capacity positions.new ≡ vec_capacity positions.old }
{
    let mut count = 0;
    for i in 0..positions.len() {
        let p = positions[i];
        positions[count] = p;
        if marks[p as usize] {
            count += 1;
        }
    }
    positions.truncate(count);
}

/// Removes from `left` the positions that aren't in `right`; both ascend.
fn keep_shared(left: &mut Vec<u32>, right: &[u32], marks: &mut [bool])
    requires left { Ascends 0 left.old.items }
    requires right { Ascends 0 right.now }
    requires clear { (p : ℕ) → slice_index_or marks.old p false ≡ false }
    ensures items { left.new.items ≡ filter (has right.now) left.old.items }
    ensures room { vec_capacity left.new ≡ vec_capacity left.old }
    ensures clear { (p : ℕ) → slice_index_or marks.new p false ≡ false }
{
    if left.len() <= MOST_KEPT && right.len() <= MOST_COMPARED {
        keep_among(left, right);
        return;
    }
    let are_few = left.len() + right.len() <= MERGED;
    if are_few || !are_below(left, marks.len()) || !are_below(right, marks.len()) {
        intersection(left, right);
        return;
    }
    mark(right, marks);
    keep_marked(left, marks);
    clear(right, marks);
}
