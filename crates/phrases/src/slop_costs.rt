//! Positions of a term, each with the least cost of reaching it from those of the term before.

ghost use Rattle.std.specs.Prelude.{[], ◌+◌, ◌<◌, ◌≡◌, ◌≤◌, length, map, slice_index_or, vec_capacity, ℕ};
ghost use Rattle.phrases.specs.Costs.{IsGradual, IsInOrder, IsTable, cheap, nearest, nearest_costs};
ghost use Rattle.phrases.specs.Places.{Ascends};

/// A position and the cost of the terms before it.
pub(crate) type Cost = (u32, u64);

/// Counts those of the four neighbours from `index` of `table` that aren't after `position`.
#[inline]
fn count_passed(table: &[Cost], index: usize, position: u32) -> usize
    requires within { index + 4 ≤ length table.now }
    requires order { IsInOrder table.now }
    ensures few { result ≤ 4 }
    ensures passed { (k : ℕ) → k < index + result → index ≤ k → (slice_index_or table.now k (0, 0)).0 ≤ position }
    ensures behind { result < 4 → position < (slice_index_or table.now (index + result) (0, 0)).0 }
{
    usize::from(table[index].0 <= position)
        + usize::from(table[index + 1].0 <= position)
        + usize::from(table[index + 2].0 <= position)
        + usize::from(table[index + 3].0 <= position)
}

/// Returns the index of the first of `table` after `position`, or its length; four at once, to spare mispredictions.
#[inline]
fn first_behind(table: &[Cost], passed: usize, position: u32) -> usize
    requires within { passed ≤ length table.now }
    requires order { IsInOrder table.now }
    requires passed { (k : ℕ) → k < passed → (slice_index_or table.now k (0, 0)).0 ≤ position }
    ensures within { result ≤ length table.now }
    ensures passed { (k : ℕ) → k < result → (slice_index_or table.now k (0, 0)).0 ≤ position }
    ensures behind { result < length table.now → position < (slice_index_or table.now result (0, 0)).0 }
{
    let mut index = passed;
    while index + 4 <= table.len() {
        let count = count_passed(table, index, position);
        index += count;
        if count < 4 {
            return index;
        }
    }
    while index < table.len() && table[index].0 <= position {
        index += 1;
    }
    index
}

/// Returns the least cost of reaching `position` from a neighbour in `table`; entries from `behind` on are after it.
/// It is cut at `most`, the slop plus 1, so no sum passes 64 bits, whatever the number of terms.
#[inline]
fn cost_at(table: &[Cost], behind: usize, position: u32, most: u64) -> u64
    requires most { most ≤ 4294967296 }
    requires table { IsTable most 0 table.now }
    requires gradual { IsGradual table.now }
    requires within { behind ≤ length table.now }
    requires passed { (k : ℕ) → k < behind → (slice_index_or table.now k (0, 0)).0 ≤ position }
    requires behind { behind < length table.now → position < (slice_index_or table.now behind (0, 0)).0 }
    ensures { result ≡ nearest most table.now position }
{
    if table.is_empty() {
        return most;
    }
    let (below, below_cost) = table[behind.saturating_sub(1)];
    let (above, above_cost) = table[behind.min(table.len() - 1)];
    let from_below = below_cost + u64::from(position.abs_diff(below));
    let from_above = above_cost + u64::from(position.abs_diff(above));
    most.min(from_below.min(from_above))
}

/// Replaces the content of `output` with `positions`, each with the least cost of reaching it from `table`.
pub(crate) fn reach(table: &[Cost], positions: &[u32], most: u64, output: &mut Vec<Cost>)
    requires most { most ≤ 4294967296 }
    requires table { IsTable most 0 table.now }
    requires gradual { IsGradual table.now }
    requires ascends { Ascends 0 positions.now }
    requires room { length positions.now ≤ vec_capacity output.old }
    ensures items { output.new.items ≡ nearest_costs most table.now positions.now }
    ensures room { vec_capacity output.new ≡ vec_capacity output.old }
{
    output.clear();
    let mut behind = 0;
    for i in 0..positions.len() {
        let position = positions[i];
        behind = first_behind(table, behind, position);
        output.push_reserved((position, cost_at(table, behind, position, most)));
    }
}

/// Replaces the content of `output` with `positions`, which cost nothing.
pub(crate) fn begin(positions: &[u32], output: &mut Vec<Cost>)
    requires room { length positions.now ≤ vec_capacity output.old }
    ensures items { output.new.items ≡ map (λ p. (p, 0)) positions.now }
    ensures room { vec_capacity output.new ≡ vec_capacity output.old }
{
    output.clear();
    for i in 0..positions.len() {
        output.push_reserved((positions[i], 0));
    }
}

/// Replaces the content of `output` with the positions of `table`.
fn copy_positions(table: &[Cost], output: &mut Vec<u32>)
    requires room { length table.now ≤ vec_capacity output.old }
    ensures items { output.new.items ≡ map (λ l. l.0) table.now }
    ensures room { vec_capacity output.new ≡ vec_capacity output.old }
{
    output.clear();
    for i in 0..table.len() {
        output.push_reserved(table[i].0);
    }
}

/// Replaces the content of `output` with the positions of `table` whose costs are within `slop`, each once.
pub(crate) fn copy_cheap(table: &[Cost], slop: u64, output: &mut Vec<u32>)
    requires room { length table.now ≤ vec_capacity output.old }
    ensures items { output.new.items ≡ cheap slop 0 table.now }
    ensures room { vec_capacity output.new ≡ vec_capacity output.old }
{
    copy_positions(table, output);
    let mut count = 0;
    let mut next: u64 = 0;
    for i in 0..table.len() {
        let (position, cost) = table[i];
        output[count] = position;
        if u64::from(position) >= next && cost <= slop {
            count += 1;
        }
        next = next.max(u64::from(position) + 1);
    }
    output.truncate(count);
}
