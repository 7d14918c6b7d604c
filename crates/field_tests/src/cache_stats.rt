//! Counts of a store's cache, added in both ways.

use std::test::Fail;
use store::CacheStats;

/// Counts of a cache.
fn stats(num_entries: usize, cache_hits: usize, cache_misses: usize) -> CacheStats {
    CacheStats {
        num_entries,
        cache_hits,
        cache_misses,
    }
}

/// Whether sums end at the greatest number.
fn are_added() -> bool {
    let (one, other) = (stats(1, usize::MAX, 3), stats(2, 1, 4));
    let mut sum = one;
    sum += other;
    sum == stats(3, usize::MAX, 7) && [one, other].iter().copied().sum::<CacheStats>() == sum
}

#[test]
fn counts_of_caches_are_added(rt: HostRuntime) -> Result<(), Fail> {
    assert!(rt; are_added() && CacheStats::default() == stats(0, 0, 0));
    Ok(())
}
