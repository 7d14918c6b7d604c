//! Bounds and sums of the numbers of a block.

ghost use Rattle.std.specs.Prelude.{IfNone, IfSome, IsTrue, ◌+◌, ◌*◌, ◌<◌, ◌^◌, ◌≡◌, ◌≤◌, ◌↔◌, length, map, sum};
ghost use Rattle.std.specs.List.{AllByRecursion};
ghost use Rattle.codes.specs.UnpackedBlocks.{listed};
ghost use Rattle.segment_postings.specs.Blocks.{more_1};
ghost use Rattle.definitions.specs.Blocks.{block_len, least_of};
ghost use Rattle.definitions.specs.Scoring.{greatest_of};
ghost use Rattle.layouts.specs.TermPostings.{id_of};

use codes::FieldNormReader;

/// Whether each of `docs` is below `num_docs`.
pub(crate) fn are_below(docs: &[u32], num_docs: u32) -> bool
    ensures { IsTrue result ↔ AllByRecursion (λ doc. doc < num_docs) docs.now }
{
    for doc in docs {
        if *doc >= num_docs {
            return false;
        }
    }
    true
}

/// Returns the least length id of `docs`; each is 1 if the field keeps no lengths.
pub(crate) fn least_id(docs: &[u32], fieldnorm_reader: &Option<FieldNormReader>) -> u8
    requires some { 0 < length docs.now }
    requires kept { IfSome fieldnorm_reader.now (λ ids. AllByRecursion (λ doc. doc < length ids) docs.now) }
    ensures { result ≡ least_of (map (id_of (listed fieldnorm_reader.now)) docs.now) }
{
    let Some(reader) = fieldnorm_reader else {
        return 1;
    };
    least_kept_id(docs, reader)
}

/// Returns the least length id of `docs`, in a field that keeps lengths.
fn least_kept_id(docs: &[u32], reader: &FieldNormReader) -> u8
    requires some { 0 < length docs.now }
    requires kept { AllByRecursion (λ doc. doc < length reader.now) docs.now }
    ensures { result ≡ least_of (map (id_of reader.now) docs.now) }
{
    let mut least = reader.fieldnorm_id(docs[0]);
    for doc in docs {
        least = reader.fieldnorm_id(*doc).min(least);
    }
    least
}

/// Returns the sum of counts that are stored less 1, if each is below 2^32.
pub(crate) fn count_sum(counts_less_1: &[u32]) -> Option<u64>
    requires { length counts_less_1.now ≤ block_len }
    ensures some { IfSome result (λ total. AllByRecursion (λ n. n < 2 ^ 32) (more_1 counts_less_1.now)
        × (total ≡ sum (more_1 counts_less_1.now)) × (total ≤ 4294967295 * length counts_less_1.now)) }
    ensures none { IfNone result (AllByRecursion (λ n. n < 2 ^ 32) (more_1 counts_less_1.now) → ⊥) }
{
    let mut total = 0;
    for number in counts_less_1 {
        if *number == u32::MAX {
            return None;
        }
        total += u64::from(*number) + 1;
    }
    Some(total)
}

/// Returns the greatest of counts that are stored less 1.
pub(crate) fn greatest_count(counts_less_1: &[u32]) -> u64
    ensures { result ≡ greatest_of (more_1 counts_less_1.now) }
{
    let mut greatest: u64 = 0;
    for number in counts_less_1 {
        greatest = greatest.max(u64::from(*number) + 1);
    }
    greatest
}
