//! Counts of living documents.

ghost use Rattle.std.specs.Prelude.{◌<◌, ◌^◌, ◌≡◌, length, sum_by};
ghost use Rattle.common.specs.BitSets.{count_set};

use common::AliveBitSet;

/// Returns how many documents are alive in all segments of these alive sets.
pub(crate) fn count_alive(alive: &[AliveBitSet]) -> u64
    requires few { length alive.now < 2 ^ 32 }
    ensures { result ≡ sum_by count_set alive.now }
{
    let mut count = 0;
    for set in alive {
        let _documents = set.len();
        count += set.num_alive() as u64;
    }
    count
}
