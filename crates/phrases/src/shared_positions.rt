//! Positions that two terms share.

ghost use Rattle.std.specs.Prelude.{◌+◌, ◌<◌, ◌≡◌, ◌≤◌, filter, length, slice_index, take, vec_capacity, ℕ};
ghost use Rattle.phrases.specs.Places.{Ascends, distinct, has};
ghost use Rattle.phrases.specs.PrefixEntries.{continued};

/// The number of places that are passed one by one.
const NEAR: usize = 16;

/// Replaces the content of `output`, which has the room, with `positions`, each once.
pub(crate) fn copy_distinct(positions: &[u32], output: &mut Vec<u32>)
    requires ascends { Ascends 0 positions.now }
    requires room { length positions.now ≤ vec_capacity output.old }
    ensures items { output.new.items ≡ distinct 0 positions.now }
    ensures room { vec_capacity output.new ≡ vec_capacity output.old }
{
    output.clear();
    let mut next: u64 = 0;
    for i in 0..positions.len() {
        let p = u64::from(positions[i]);
        if p >= next {
            output.push_reserved(positions[i]);
            next = p + 1;
        }
    }
}

/// Moves ascending `positions`, each once, to the front, and returns their number.
fn put_distinct_first(positions: &mut [u32]) -> usize
    ensures few { result ≤ length positions.new }
    ensures items { take result positions.new ≡ distinct 0 positions.old }
{
    let mut count = 0;
    let mut next: u64 = 0;
    for i in 0..positions.len() {
        let position = positions[i];
        positions[count] = position;
        if u64::from(position) >= next {
            count += 1;
        }
        next = next.max(u64::from(position) + 1);
    }
    count
}

/// Removes repeats from `positions`, which ascend. Most terms occur once in a document.
pub(crate) fn keep_distinct(positions: &mut Vec<u32>)
    ensures items { positions.new.items ≡ distinct 0 positions.old.items }
    ensures room { vec_capacity positions.new ≡ vec_capacity positions.old }
{
    if positions.len() > 1 {
        let count = put_distinct_first(positions);
        positions.truncate(count);
    }
}

/// Whether `position` is in `positions`. Compares it with each, as no processor foresees with which it agrees.
#[inline]
fn has_position(positions: &[u32], position: u32) -> bool
    ensures { result ≡ has positions.now position }
{
    let mut found = false;
    for i in 0..positions.len() {
        found |= positions[i] == position;
    }
    found
}

/// Moves the positions of `left` that are in `right` to the front, and returns their number.
#[inline]
fn put_shared_first(left: &mut [u32], right: &[u32]) -> usize
    ensures few { result ≤ length left.new }
    ensures items { take result left.new ≡ filter (has right.now) left.old }
{
    let mut count = 0;
    for i in 0..left.len() {
        let position = left[i];
        left[count] = position;
        if has_position(right, position) {
            count += 1;
        }
    }
    count
}

/// Removes from `left` the positions that aren't in `right`. Compares each with each, which pays if they are few.
#[inline]
pub(crate) fn keep_among(left: &mut Vec<u32>, right: &[u32])
    ensures items { left.new.items ≡ filter (has right.now) left.old.items }
    ensures room { vec_capacity left.new ≡ vec_capacity left.old }
{
    let count = put_shared_first(left, right);
    left.truncate(count);
}

/// Removes from `left` the positions that aren't in `right`, by a merge; both ascend.
pub(crate) fn intersection(left: &mut Vec<u32>, right: &[u32])
    requires left { Ascends 0 left.old.items }
    requires right { Ascends 0 right.now }
    ensures items { left.new.items ≡ filter (has right.now) left.old.items }
    ensures room { vec_capacity left.new ≡ vec_capacity left.old }
{
    let mut count = 0;
    let mut i = 0;
    let mut j = 0;
    while i < left.len() && j < right.len() {
        let (l, r) = (left[i], right[j]);
        left[count] = l;
        count += usize::from(l == r);
        i += usize::from(l <= r);
        j += usize::from(r < l);
    }
    left.truncate(count);
}

/// Returns an index from `start` on; the places that are passed on the way, shifted by `moved`, are below `position`.
/// It looks ahead by steps that double, so that many are passed by few looks.
fn pass_places(places: &[u32], start: usize, moved: u32, position: u64) -> usize
    requires start { start < length places.now }
    requires places { Ascends 0 places.now }
    ensures from { start ≤ result }
    ensures within { result < length places.now }
    ensures passed { (k : ℕ) → start ≤ k → k < result → slice_index places.now k + moved < position }
{
    let mut index = start;
    let mut step = NEAR;
    while step < places.len() - index
        && u64::from(places[index + step]) + u64::from(moved) < position
    {
        index += step;
        step += step;
    }
    index
}

/// Counts those of `places` that are in `positions` when shifted by `moved`; both ascend.
pub(crate) fn count_continued(places: &[u32], moved: u32, positions: &[u32]) -> usize
    requires places { Ascends 0 places.now }
    requires positions { Ascends 0 positions.now }
    ensures { result ≡ continued moved places.now positions.now }
{
    let mut count = 0;
    let mut i = 0;
    let mut j = 0;
    while i < places.len() && j < positions.len() {
        let position = u64::from(positions[j]);
        i = pass_places(places, i, moved, position);
        let place = u64::from(places[i]) + u64::from(moved);
        count += usize::from(place == position);
        i += usize::from(place <= position);
        j += usize::from(position < place);
    }
    count
}

/// Replaces the content of `output`, which has the room, with `positions`.
pub(crate) fn copy_all(positions: &[u32], output: &mut Vec<u32>)
    requires { length positions.now ≤ vec_capacity output.old }
    ensures items { output.new.items ≡ positions.now }
    ensures room { vec_capacity output.new ≡ vec_capacity output.old }
{
    output.clear();
    for i in 0..positions.len() {
        output.push_reserved(positions[i]);
    }
}
