//! The check of one full block.

ghost use Rattle.std.specs.Prelude.{IfErr, IfOk, IfSome, List, None, ℕ, ◌*◌, ◌≡◌, ◌≤◌, false, if◌then◌else◌, length, sum};
ghost use Rattle.codes.specs.UnpackedBlocks.{listed};
ghost use Rattle.segment_postings.specs.Blocks.{BeginsWithBlock, IsCountBlock, IsDocBlock, entry_of};
ghost use Rattle.definitions.specs.Schema.{has_freq, has_positions};
ghost use Rattle.definitions.specs.declared.fault.Fault.TheVariants as faults;
ghost use Rattle.layouts.specs.Deltas.{next_of};
ghost use Rattle.options.specs.RecordOption.{record_option_of};

use crate::block_totals::{are_below, count_sum, greatest_count, least_id};
use crate::entry_check::Entry;
use codes::{BlockDecoder, COMPRESSION_BLOCK_SIZE, FieldNormReader, compressed_block_size};
use definitions::Fault;
use options::IndexRecordOption;

/// Checks that `bytes` begin with a full block as `entry` describes it, and returns the sum of its counts. `before` is
/// the document before the block, or 0 if there is none.
pub(crate) fn checked_block(
    bytes: &[u8],
    before: u32,
    entry: Entry,
    option: IndexRecordOption,
    fieldnorm_reader: &Option<FieldNormReader>,
    num_docs: u32,
) -> Result<u64, Fault>
    requires { IfSome fieldnorm_reader.now (λ ids. length ids ≡ num_docs) }
    ensures ok { IfOk result (λ total. BeginsWithBlock (record_option_of option) (listed fieldnorm_reader.now) num_docs
        (next_of before) (entry_of entry) bytes.now total × (total ≤ 549755813760)) }
    ensures err { IfErr result (λ fault. (fault ≡ faults.Damaged None)
        × ((total : ℕ) → BeginsWithBlock (record_option_of option) (listed fieldnorm_reader.now) num_docs
        (next_of before) (entry_of entry) bytes.now total → ⊥)) }
{
    let Some((docs, rest)) = bytes.split_at_checked(compressed_block_size(entry.doc_width)) else {
        return Err(Fault::Damaged(None));
    };
    let Some((counts, _)) = rest.split_at_checked(compressed_block_size(entry.count_width)) else {
        return Err(Fault::Damaged(None));
    };
    check_docs(docs, before, entry, fieldnorm_reader, num_docs)?;
    checked_counts(counts, entry, option)
}

/// Checks the documents of a full block.
fn check_docs(
    bytes: &[u8],
    before: u32,
    entry: Entry,
    fieldnorm_reader: &Option<FieldNormReader>,
    num_docs: u32,
) -> Result<(), Fault>
    requires kept { IfSome fieldnorm_reader.now (λ ids. length ids ≡ num_docs) }
    requires long { length bytes.now ≡ 16 * entry.doc_width }
    ensures ok { IfOk result (λ done. (docs : List ℕ)
        × IsDocBlock (listed fieldnorm_reader.now) num_docs (next_of before) (entry_of entry) docs bytes.now) }
    ensures err { IfErr result (λ fault. (fault ≡ faults.Damaged None)
        × ((docs : List ℕ) → IsDocBlock (listed fieldnorm_reader.now) num_docs (next_of before) (entry_of entry) docs
        bytes.now → ⊥)) }
{
    let mut decoder = BlockDecoder::with_val(0);
    decoder.checked_block_sorted(bytes, before, entry.doc_width)?;
    let docs = decoder.output_array();
    if docs[127] != entry.last_doc {
        return Err(Fault::Damaged(None));
    }
    if !are_below(docs, num_docs) {
        return Err(Fault::Damaged(None));
    }
    if least_id(docs, fieldnorm_reader) != entry.least_id {
        return Err(Fault::Damaged(None));
    }
    Ok(())
}

/// Checks the counts of a full block, and returns their sum.
fn checked_counts(bytes: &[u8], entry: Entry, option: IndexRecordOption) -> Result<u64, Fault>
    requires { length bytes.now ≡ 16 * entry.count_width }
    ensures ok { IfOk result (λ total. ((counts : List ℕ)
        × IsCountBlock (record_option_of option) (entry_of entry) counts bytes.now × (total ≡ sum counts))
        × (total ≤ 549755813760)) }
    ensures err { IfErr result (λ fault. (fault ≡ faults.Damaged None)
        × ((counts : List ℕ) → IsCountBlock (record_option_of option) (entry_of entry) counts bytes.now → ⊥)) }
{
    if !option.has_freq() {
        return unrecorded_counts(bytes, entry, option);
    }
    let mut decoder = BlockDecoder::with_val(0);
    decoder.checked_block_unsorted(bytes, entry.count_width)?;
    let counts_less_1 = decoder.output_array();
    let Some(total) = count_sum(counts_less_1) else {
        return Err(Fault::Damaged(None));
    };
    if told_sum(option, total) != u64::from(entry.count_sum) {
        return Err(Fault::Damaged(None));
    }
    if greatest_count(counts_less_1).min(255) != u64::from(entry.greatest_count) {
        return Err(Fault::Damaged(None));
    }
    Ok(total)
}

/// Returns the sum of a block's counts as its entry has it: 0 if no positions are recorded.
fn told_sum(option: IndexRecordOption, total: u64) -> u64
    ensures { result ≡ (if has_positions (record_option_of option) then total else 0) }
{
    if option.has_positions() { total } else { 0 }
}

/// Checks a full block whose counts aren't recorded, each then 1, and returns their sum.
fn unrecorded_counts(bytes: &[u8], entry: Entry, option: IndexRecordOption) -> Result<u64, Fault>
    requires long { length bytes.now ≡ 16 * entry.count_width }
    requires unrecorded { has_freq (record_option_of option) ≡ false }
    ensures ok { IfOk result (λ total. ((counts : List ℕ)
        × IsCountBlock (record_option_of option) (entry_of entry) counts bytes.now × (total ≡ sum counts))
        × (total ≤ 549755813760)) }
    ensures err { IfErr result (λ fault. (fault ≡ faults.Damaged None)
        × ((counts : List ℕ) → IsCountBlock (record_option_of option) (entry_of entry) counts bytes.now → ⊥)) }
{
    if !bytes.is_empty() {
        return Err(Fault::Damaged(None));
    }
    if entry.count_sum != 0 {
        return Err(Fault::Damaged(None));
    }
    if entry.greatest_count != 1 {
        return Err(Fault::Damaged(None));
    }
    Ok(COMPRESSION_BLOCK_SIZE as u64)
}
