//! What the counts of look-ups promise.

ghost use Rattle.std.specs.Prelude.{◌+◌, ◌<◌, ◌^◌, ◌≡◌, ℕ};
ghost use Rattle.store.specs.Caches.{Kept, looked_up, summed};
ghost use Rattle.store.specs.declared.cache_stats.CacheStats.{CacheStats as Stats};

/// Each look-up is a hit or a miss, while the counts fit.
pub fn look_ups_are_counted()
    ensures { (at : ℕ) (k : Kept) → k.hits + 1 < 2 ^ 64 → k.misses + 1 < 2 ^ 64
        → (looked_up at k).hits + (looked_up at k).misses ≡ k.hits + k.misses + 1 }
{}

/// Counts are added in any order, and in any groups.
pub fn sums_have_no_order()
    ensures order { (a b : Stats) → summed a b ≡ summed b a }
    ensures groups { (a b c : Stats) → summed (summed a b) c ≡ summed a (summed b c) }
{}
