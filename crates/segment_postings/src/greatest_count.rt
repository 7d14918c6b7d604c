//! A bound of a term's counts, without its blocks.

ghost use Rattle.std.specs.Prelude.{◌≡◌, ◌≤◌, List, max, nat_eq, if◌then◌else◌, slice_index, ℕ};
ghost use Rattle.segment_postings.specs.CountBounds.{TellCounts};

use codes::{BlockInfo, SkipReader};

/// Returns an upper bound of the counts from the block of `skips` on: for full blocks the greatest counts in their
/// entries or, if an entry has none, the sums of their counts; for the rest the number of positions that are left.
/// It may be above the greatest count, never above the number of positions of the term.
pub(crate) fn greatest_count(skips: SkipReader<'_>, num_positions: u128) -> u32
    ensures above { (counts : List ℕ) → TellCounts num_positions skips.entry counts
        → (i : ℕ) → slice_index counts i ≤ result }
    ensures few { (counts : List ℕ) → TellCounts num_positions skips.entry counts → result ≤ num_positions }
{
    let mut skips = skips;
    let mut greatest = 0;
    while let BlockInfo::BitPacked {
        tf_sum,
        block_wand_term_freq,
        ..
    } = skips.block_info()
    {
        greatest = greatest.max(block_bound(tf_sum, block_wand_term_freq));
        skips.advance();
    }
    let left = num_positions.saturating_sub(skips.position_offset() as u128);
    greatest.max(left.min(4294967295) as u32)
}

/// Returns the greatest count of a full block or, if its entry has none, the sum of the counts.
fn block_bound(count_sum: u32, greatest_count: u8) -> u32
    ensures { result ≡ (if nat_eq greatest_count 255 then count_sum else greatest_count) }
{
    if greatest_count == 255 {
        return count_sum;
    }
    u32::from(greatest_count)
}
