//! The check of all blocks of a term.

ghost use Rattle.std.specs.Prelude.{IfErr, IfOk, IfSome, None, ℕ, ◌*◌, ◌+◌, ◌/◌, ◌%◌, ◌<◌, ◌≡◌, ◌≤◌, drop, length};
ghost use Rattle.codes.specs.UnpackedBlocks.{listed};
ghost use Rattle.segment_postings.specs.Blocks.{HasBlocks, entry_of};
ghost use Rattle.definitions.specs.Blocks.{block_len};
ghost use Rattle.definitions.specs.declared.fault.Fault.TheVariants as faults;
ghost use Rattle.options.specs.RecordOption.{record_option_of};
ghost use Rattle.codes.specs.SkipBlocks.{block_size};

use crate::entry_check::{Entry, first_entry};
use crate::full_block_check::checked_block;
use crate::rest_check::checked_rest;
use codes::{COMPRESSION_BLOCK_SIZE, FieldNormReader, SkipReader, compressed_block_size};
use definitions::Fault;
use options::IndexRecordOption;

/// Checks that `bytes` are the blocks of `doc_freq` documents as `skips` describes them, and returns the sum of their
/// counts.
pub(crate) fn checked_blocks(
    bytes: &[u8],
    skips: &mut SkipReader,
    doc_freq: u32,
    option: IndexRecordOption,
    fieldnorm_reader: &Option<FieldNormReader>,
    num_docs: u32,
) -> Result<u64, Fault>
    requires kept { IfSome fieldnorm_reader.now (λ ids. length ids ≡ num_docs) }
    requires entries { length skips.old.left ≡ doc_freq / block_len }
    ensures ok { IfOk result (λ total. HasBlocks (record_option_of option) (listed fieldnorm_reader.now) num_docs 0
        skips.old.left (doc_freq % block_len) bytes.now total) }
    ensures err { IfErr result (λ fault. (fault ≡ faults.Damaged None)
        × ((total : ℕ) → HasBlocks (record_option_of option) (listed fieldnorm_reader.now) num_docs 0 skips.old.left
        (doc_freq % block_len) bytes.now total → ⊥)) }
{
    let mut rest = bytes;
    let mut before = 0;
    let mut total = 0;
    for _ in 0..doc_freq / COMPRESSION_BLOCK_SIZE as u32 {
        let entry = first_entry(skips);
        total += checked_block(rest, before, entry, option, fieldnorm_reader, num_docs)?;
        rest = behind_block(rest, entry);
        before = entry.last_doc;
        skips.advance();
    }
    let last = checked_rest(
        rest,
        before,
        doc_freq as usize % COMPRESSION_BLOCK_SIZE,
        option,
        num_docs,
    )?;
    Ok(total + last)
}

/// Returns the bytes after the full block with which `bytes` begin.
fn behind_block(bytes: &[u8], entry: Entry) -> &[u8]
    requires { block_size (entry_of entry) ≤ length bytes.now }
    ensures { result.now ≡ drop (block_size (entry_of entry)) bytes.now }
{
    let end = compressed_block_size(entry.doc_width) + compressed_block_size(entry.count_width);
    &bytes[end..]
}
