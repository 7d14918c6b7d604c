//! The blocks of a term, encoded.

ghost use Rattle.std.specs.Prelude.{[], ◌++◌, ◌<◌, ◌≡◌, ◌^◌, ◌∷◌, IfErr, List, OnOk, if◌then◌else◌, length, nat_le, slice_index, sum, ℕ};
ghost use Rattle.definitions.specs.Blocks.{block_len};
ghost use Rattle.definitions.specs.NumberCodes.{u32_bytes};
ghost use Rattle.definitions.specs.Schema.{has_freq, has_positions};
ghost use Rattle.layouts.specs.Deltas.{IsAscendingFrom, deltas, next_of};
ghost use Rattle.layouts.specs.PackedBlocks.{IsBlock};
ghost use Rattle.layouts.specs.PackedBytes.{packed_bytes, width_of};
ghost use Rattle.options.specs.RecordOption.{record_option_of};
ghost use Rattle.postings_writer.specs.TermWriting.{IsRefusal, block_added, rest_added, term_bytes};

use crate::unfilled_block::Block;
use codes::{BlockEncoder, SkipSerializer, VIntEncoder};
use common::put_bytes;
use definitions::Fault;
use options::IndexRecordOption;
use std::alloc::{AllocError, Global};
use std::marker::Model;

/// Skip entries and blocks of the term that is being written.
#[derive(Drop)]
pub(crate) struct BlockWriter {
    encoder: BlockEncoder,
    skip_write: SkipSerializer,
    blocks: Vec<u8>,
}

impl Model for BlockWriter {
    ghost use Rattle.postings_writer.specs.TermWriting.{Blocks};

    ghost Value = { Blocks };

    ghost view = { λ w. record { skips = w.skip_write; blocks = w.blocks.items } };
}

impl BlockWriter {
    /// Returns a writer without blocks.
    pub(crate) fn new(alloc: Global) -> BlockWriter
        ensures { result ≡ record { skips = []; blocks = [] } }
    {
        BlockWriter {
            encoder: BlockEncoder::new(),
            skip_write: SkipSerializer::new(alloc),
            blocks: Vec::new(alloc),
        }
    }

    /// Removes all blocks.
    pub(crate) fn clear(&mut self)
        ensures { self.new ≡ record { skips = []; blocks = [] } }
    {
        self.skip_write.clear();
        self.blocks.clear();
    }

    /// Appends a full block and its skip entry. `offset` is the last document before it, or 0.
    pub(crate) fn write_block(
        &mut self,
        option: IndexRecordOption,
        offset: u32,
        block: &Block,
    ) -> Result<(), Fault>
        requires docs { length block.now.docs ≡ block_len }
        requires counts { length block.now.counts ≡ block_len }
        requires ascending { IsAscendingFrom (next_of offset) block.now.docs }
        ensures ok { OnOk result (self.new ≡ block_added (record_option_of option) offset block.now self.old) }
        ensures within { OnOk result (sum block.now.counts < 2 ^ 32) }
        ensures err { IfErr result (λ fault. IsRefusal fault (nat_le (2 ^ 32) (sum block.now.counts))) }
    {
        let Ok(count_sum) = u32::try_from(block.count_sum()) else {
            return Err(Fault::Limit);
        };
        self.write_docs(offset, block.docs())?;
        self.write_term_freqs(option, block.counts_less_1())?;
        self.write_total_term_freq(option, count_sum)?;
        self.skip_write
            .write_blockwand_max(block.least_id(), block.greatest_count())?;
        Ok(())
    }

    /// Appends the documents of a full block, and begins its skip entry.
    fn write_docs(&mut self, offset: u32, docs: &[u32]) -> Result<(), AllocError>
        requires count { length docs.now ≡ block_len }
        requires ascending { IsAscendingFrom (next_of offset) docs.now }
        ensures { OnOk result (self.new
            ≡ record {
              skips = self.old.skips ++ u32_bytes (slice_index docs.now 127) ++ width_of
                  (deltas (next_of offset) docs.now)
                  ∷ [];
              blocks = self.old.blocks ++ packed_bytes (deltas (next_of offset) docs.now);
            }) }
    {
        let (width, bytes) = self.encoder.compress_block_sorted(docs, offset);
        self.skip_write.write_doc(docs[127], width)?;
        put_packed(&mut self.blocks, bytes)?;
        Ok(())
    }

    /// Appends the counts of a full block, each less 1, if they are recorded.
    fn write_term_freqs(
        &mut self,
        option: IndexRecordOption,
        counts_less_1: &[u32],
    ) -> Result<(), AllocError>
        requires { length counts_less_1.now ≡ block_len }
        ensures { OnOk result (self.new
            ≡ record {
              skips = self.old.skips ++ (if has_freq (record_option_of option) then width_of counts_less_1.now
                  ∷ [] else []);
              blocks = self.old.blocks ++ (if has_freq (record_option_of option) then packed_bytes
                  counts_less_1.now else []);
            }) }
    {
        if !option.has_freq() {
            return Ok(());
        }
        let (width, bytes) = self.encoder.compress_block_unsorted(counts_less_1);
        self.skip_write.write_term_freq(width)?;
        put_packed(&mut self.blocks, bytes)?;
        Ok(())
    }

    /// Appends the sum of the counts of a full block to its skip entry, if positions are recorded.
    fn write_total_term_freq(
        &mut self,
        option: IndexRecordOption,
        count_sum: u32,
    ) -> Result<(), AllocError>
        ensures { OnOk result (self.new
            ≡ record {
              skips = self.old.skips ++ (if has_positions (record_option_of option) then u32_bytes count_sum
                  else []);
              blocks = self.old.blocks;
            }) }
    {
        if !option.has_positions() {
            return Ok(());
        }
        self.skip_write.write_total_term_freq(count_sum)?;
        Ok(())
    }

    /// Appends the documents after the full blocks, fewer than 128.
    pub(crate) fn write_rest(
        &mut self,
        option: IndexRecordOption,
        offset: u32,
        block: &Block,
    ) -> Result<(), AllocError>
        requires { IsAscendingFrom (next_of offset) block.now.docs }
        ensures { OnOk result (self.new ≡ rest_added (record_option_of option) offset block.now self.old) }
    {
        self.encoder
            .compress_vint_sorted(&mut self.blocks, block.docs(), offset)?;
        if !option.has_freq() {
            return Ok(());
        }
        self.encoder
            .compress_vint_unsorted(&mut self.blocks, block.counts_less_1())?;
        Ok(())
    }

    /// Appends the skip entries, if there are full blocks, and the blocks to `output`. For 2^32 bytes or more it is
    /// `Limit`, and nothing is appended.
    pub(crate) fn append_to(&self, has_skips: bool, output: &mut Vec<u8>) -> Result<(), Fault>
        ensures ok { OnOk result (output.new.items ≡ output.old.items ++ term_bytes has_skips self.now) }
        ensures within { OnOk result (length (term_bytes has_skips self.now) < 2 ^ 32) }
        ensures err { IfErr result (λ fault. IsRefusal fault
            (nat_le (2 ^ 32) (length (term_bytes has_skips self.now)))) }
    {
        let before = output.len();
        self.put(has_skips, output)?;
        if output.len() - before >= 1 << 32 {
            output.truncate(before);
            return Err(Fault::Limit);
        }
        Ok(())
    }

    /// Like `append_to`, but for any number of bytes.
    fn put(&self, has_skips: bool, output: &mut Vec<u8>) -> Result<(), AllocError>
        ensures { OnOk result (output.new.items ≡ output.old.items ++ term_bytes has_skips self.now) }
    {
        if has_skips {
            put_bytes(output, self.skip_write.data())?;
        }
        output.extend_from_slice(&self.blocks)?;
        Ok(())
    }
}

/// Appends a packed block, the only one of its numbers.
fn put_packed(blocks: &mut Vec<u8>, packed: &[u8]) -> Result<(), AllocError>
    ensures { (w : ℕ) (numbers : List ℕ) → IsBlock w numbers packed.now
        → OnOk result (blocks.new.items ≡ blocks.old.items ++ packed_bytes numbers) }
{
    blocks.extend_from_slice(packed)?;
    Ok(())
}
