//! The check of the documents after the full blocks.

ghost use Rattle.std.specs.Prelude.{IfErr, IfOk, List, None, ℕ, ◌^◌, ◌<◌, ◌≡◌, ◌≤◌, [], false};
ghost use Rattle.segment_postings.specs.Blocks.{BeginsWithDocs, HasBlocks, HasCounts, HasRestCounts};
ghost use Rattle.definitions.specs.Blocks.{block_len};
ghost use Rattle.definitions.specs.Schema.{has_freq};
ghost use Rattle.definitions.specs.declared.fault.Fault.TheVariants as faults;
ghost use Rattle.layouts.specs.Deltas.{next_of};
ghost use Rattle.options.specs.RecordOption.{record_option_of};

use crate::rest_numbers::take_number;
use definitions::Fault;
use options::IndexRecordOption;

/// Checks that `bytes` are `doc_count` documents, fewer than 128, and returns the sum of their counts. `before` is the
/// document before them, or 0 if there is none.
pub(crate) fn checked_rest(
    bytes: &[u8],
    before: u32,
    doc_count: usize,
    option: IndexRecordOption,
    num_docs: u32,
) -> Result<u64, Fault>
    requires { doc_count < block_len }
    ensures ok { IfOk result (λ total. ((ids : List ℕ)
        → HasBlocks (record_option_of option) ids num_docs (next_of before) [] doc_count bytes.now total)
        × (total ≤ 549755813760)) }
    ensures err { IfErr result (λ fault. (fault ≡ faults.Damaged None)
        × ((ids : List ℕ) (total : ℕ)
        → HasBlocks (record_option_of option) ids num_docs (next_of before) [] doc_count bytes.now total → ⊥)) }
{
    let rest = checked_docs(bytes, before, doc_count, num_docs)?;
    let total = rest_counts(rest, doc_count, option)?;
    Ok(total)
}

/// Checks that `bytes` begin with `doc_count` documents, and returns what follows them. `before` is the document before
/// them, or 0 if there is none.
fn checked_docs(bytes: &[u8], before: u32, doc_count: usize, num_docs: u32) -> Result<&[u8], Fault>
    ensures ok { IfOk result (λ rest. BeginsWithDocs num_docs (next_of before) doc_count bytes.now rest.now) }
    ensures err { IfErr result (λ fault. (fault ≡ faults.Damaged None)
        × ((left : List ℕ) → BeginsWithDocs num_docs (next_of before) doc_count bytes.now left → ⊥)) }
{
    let mut rest = bytes;
    let mut next = least_after(before);
    for _ in 0..doc_count {
        let (delta, after) = take_number(rest)?;
        let doc = next + delta as u64;
        if doc >= num_docs as u64 {
            return Err(Fault::Damaged(None));
        }
        next = doc + 1;
        rest = after;
    }
    Ok(rest)
}

/// Returns the least document after `before`, or 0 if there is none before.
fn least_after(before: u32) -> u64
    ensures least { result ≡ next_of before }
    ensures few { result ≤ 2 ^ 32 }
{
    if before == 0 {
        0
    } else {
        u64::from(before) + 1
    }
}

/// Checks `doc_count` counts up to the end of `bytes`, and returns their sum.
fn rest_counts(bytes: &[u8], doc_count: usize, option: IndexRecordOption) -> Result<u64, Fault>
    requires { doc_count < block_len }
    ensures ok { IfOk result (λ total. HasRestCounts (record_option_of option) doc_count bytes.now total
        × (total ≤ 549755813760)) }
    ensures err { IfErr result (λ fault. (fault ≡ faults.Damaged None)
        × ((total : ℕ) → HasRestCounts (record_option_of option) doc_count bytes.now total → ⊥)) }
{
    if !option.has_freq() {
        return unrecorded_rest(bytes, doc_count, option);
    }
    let total = recorded_rest(bytes, doc_count)?;
    Ok(total)
}

/// Checks `doc_count` counts that are recorded, each less 1, and returns their sum.
pub(crate) fn recorded_rest(bytes: &[u8], doc_count: usize) -> Result<u64, Fault>
    requires { doc_count < block_len }
    ensures ok { IfOk result (λ total. HasCounts doc_count bytes.now total × (total ≤ 549755813760)) }
    ensures err { IfErr result (λ fault. (fault ≡ faults.Damaged None)
        × ((total : ℕ) → HasCounts doc_count bytes.now total → ⊥)) }
{
    let mut rest = bytes;
    let mut total = 0;
    for _ in 0..doc_count {
        let (number, after) = take_number(rest)?;
        let count = number as u64 + 1;
        if count > u32::MAX as u64 {
            return Err(Fault::Damaged(None));
        }
        total += count;
        rest = after;
    }
    if !rest.is_empty() {
        return Err(Fault::Damaged(None));
    }
    Ok(total)
}

/// Checks `doc_count` counts that aren't recorded, each then 1, and returns their sum.
fn unrecorded_rest(bytes: &[u8], doc_count: usize, option: IndexRecordOption) -> Result<u64, Fault>
    requires few { doc_count < block_len }
    requires unrecorded { has_freq (record_option_of option) ≡ false }
    ensures ok { IfOk result (λ total. HasRestCounts (record_option_of option) doc_count bytes.now total
        × (total ≤ 549755813760)) }
    ensures err { IfErr result (λ fault. (fault ≡ faults.Damaged None)
        × ((total : ℕ) → HasRestCounts (record_option_of option) doc_count bytes.now total → ⊥)) }
{
    if !bytes.is_empty() {
        return Err(Fault::Damaged(None));
    }
    Ok(doc_count as u64)
}
