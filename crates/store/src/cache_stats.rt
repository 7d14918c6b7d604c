//! How often blocks were found in the cache.

ghost use Rattle.std.specs.Prelude.{◌≡◌, fold};
ghost use Rattle.store.specs.Caches.{no_stats, summed};

use std::iter::Sum;
use std::ops::AddAssign;

/// What a cache of opened blocks holds, and how many look-ups there were. Sums saturate.
#[derive(Clone, Copy, Debug, PartialEq, Eq)]
pub struct CacheStats {
    /// How many blocks it holds.
    pub num_entries: usize,
    /// How many look-ups found their block.
    pub cache_hits: usize,
    /// How many look-ups didn't.
    pub cache_misses: usize,
}

impl Default for CacheStats {
    ghost is_default = { λ stats. stats ≡ no_stats };

    fn default() -> CacheStats {
        CacheStats {
            num_entries: 0,
            cache_hits: 0,
            cache_misses: 0,
        }
    }
}

impl AddAssign for CacheStats {
    ghost add_assign_gives = { λ a b r. r ≡ summed a b };

    fn add_assign(&mut self, other: CacheStats) {
        self.num_entries = self.num_entries.saturating_add(other.num_entries);
        self.cache_hits = self.cache_hits.saturating_add(other.cache_hits);
        self.cache_misses = self.cache_misses.saturating_add(other.cache_misses);
    }
}

impl Sum<CacheStats> for CacheStats {
    ghost sum_gives = { λ all r. r ≡ fold summed no_stats all };

    fn sum<I: Iterator<Item = CacheStats>>(iter: I) -> CacheStats {
        let mut sum = CacheStats::default();
        for stats in iter {
            sum += stats;
        }
        sum
    }
}
