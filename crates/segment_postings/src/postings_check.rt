//! The check of a term's postings.

ghost use Rattle.std.specs.Prelude.{IfErr, IfOk, IfSome, None, Some, ℕ, [], ◌<◌, ◌≡◌, ◌≤◌, length};
ghost use Rattle.codes.specs.UnpackedBlocks.{listed};
ghost use Rattle.segment_postings.specs.Terms.{HasTerm};
ghost use Rattle.definitions.specs.Blocks.{block_len};
ghost use Rattle.definitions.specs.NumberCodes.{take_bytes};
ghost use Rattle.definitions.specs.Postings.{terminated};
ghost use Rattle.definitions.specs.Schema.{has_freq, has_positions};
ghost use Rattle.definitions.specs.declared.fault.Fault.TheVariants as faults;
ghost use Rattle.options.specs.RecordOption.{record_option_of};

use crate::full_blocks_check::checked_blocks;
use codes::{COMPRESSION_BLOCK_SIZE, FieldNormReader, Recorded, SkipReader};
use common::take_bytes;
use definitions::Fault;
use options::IndexRecordOption;

/// Returns what is recorded of a term beside its documents, under the `option` of its field.
pub fn recorded_of(option: IndexRecordOption) -> Recorded
    ensures counts { result.counts ≡ has_freq (record_option_of option) }
    ensures positions { result.positions ≡ has_positions (record_option_of option) }
{
    Recorded {
        counts: option.has_freq(),
        positions: option.has_positions(),
    }
}

/// Checks that `bytes` are the postings of `doc_freq` documents, and returns the sum of their counts.
pub(crate) fn checked_postings(
    bytes: &[u8],
    doc_freq: u32,
    option: IndexRecordOption,
    fieldnorm_reader: &Option<FieldNormReader>,
    num_docs: u32,
) -> Result<u64, Fault>
    requires kept { IfSome fieldnorm_reader.now (λ ids. length ids ≡ num_docs) }
    requires few { num_docs ≤ terminated }
    ensures ok { IfOk result (λ total. HasTerm (record_option_of option) (listed fieldnorm_reader.now) num_docs
        doc_freq bytes.now total) }
    ensures err { IfErr result (λ fault. (fault ≡ faults.Damaged None)
        × ((total : ℕ) → HasTerm (record_option_of option) (listed fieldnorm_reader.now) num_docs doc_freq bytes.now
        total → ⊥)) }
{
    let (entries, packed) = split_entries(bytes, doc_freq)?;
    let mut skips = SkipReader::open(entries, doc_freq, recorded_of(option))?;
    let total = checked_blocks(
        packed,
        &mut skips,
        doc_freq,
        option,
        fieldnorm_reader,
        num_docs,
    )?;
    Ok(total)
}

/// Splits the postings of `doc_freq` documents into skip entries and the blocks after them.
fn split_entries(bytes: &[u8], doc_freq: u32) -> Result<(&[u8], &[u8]), Fault>
    ensures few { IfOk result (λ p. doc_freq < block_len → (p.0.now ≡ []) × (p.1.now ≡ bytes.now)) }
    ensures many { IfOk result (λ p. block_len ≤ doc_freq → take_bytes bytes.now ≡ Some (p.0.now, p.1.now)) }
    ensures err { IfErr result (λ fault. (fault ≡ faults.Damaged None) × (block_len ≤ doc_freq)
        × (take_bytes bytes.now ≡ None)) }
{
    if doc_freq < COMPRESSION_BLOCK_SIZE as u32 {
        return Ok((&bytes[..0], bytes));
    }
    let parts = take_bytes(bytes)?;
    Ok(parts)
}
