//! Blocks of bytes from outside: decoded where the bytes are in the layout, and refused where they aren't.

ghost use Rattle.std.specs.Prelude.{[], ◌*◌, ◌+◌, ◌<◌, ◌^◌, ◌≡◌, ◌≤◌, IfErr, IfNone, IfOk, IfSome, List, None, OnErr, OnOk, length, slice_index, take, ℕ};
ghost use Rattle.codes.specs.DecodedBlocks.{output_list};
ghost use Rattle.layouts.specs.Deltas.{documents, next_of};
ghost use Rattle.definitions.specs.Blocks.{block_len};
ghost use Rattle.definitions.specs.declared.fault.Fault.TheVariants as faults;
ghost use Rattle.layouts.specs.PackedBlocks.{IsBlock, IsSortedBlock};

use crate::bit_packer::width_of;
use crate::block_decoder::BlockDecoder;
use crate::block_size::{COMPRESSION_BLOCK_SIZE, compressed_block_size};
use crate::delta_offset::least_after;
use definitions::Fault;

impl BlockDecoder {
    /// Decodes the block of width `num_bits` that `bytes` must begin with; returns how many bytes it takes.
    pub fn checked_block_unsorted(&mut self, bytes: &[u8], num_bits: u8) -> Result<usize, Fault>
        ensures ok { IfOk result (λ consumed. (consumed ≡ 16 * num_bits)
            × IsBlock num_bits (output_list self.new) (take (16 * num_bits) bytes.now)) }
        ensures err { IfErr result (λ fault. (fault ≡ faults.Damaged None)
            × ((numbers : List ℕ) → ¬ IsBlock num_bits numbers (take (16 * num_bits) bytes.now))) }
        ensures nothing { OnErr result (output_list self.new ≡ []) }
    {
        if num_bits > 32 || bytes.len() < compressed_block_size(num_bits) {
            self.output_len = 0;
            return Err(Fault::Damaged(None));
        }
        let consumed = self.uncompress_block_unsorted(bytes, num_bits);
        if width_of(self.output_array()) != num_bits as u32 {
            self.output_len = 0;
            return Err(Fault::Damaged(None));
        }
        Ok(consumed)
    }

    /// Decodes the block of ascending documents below 2^32 that `bytes` must begin with; returns how many bytes it
    /// takes. `offset` is the document before the block, or 0 where there is none.
    pub fn checked_block_sorted(
        &mut self,
        bytes: &[u8],
        offset: u32,
        num_bits: u8,
    ) -> Result<usize, Fault>
        ensures ok { IfOk result (λ consumed. (consumed ≡ 16 * num_bits)
            × IsSortedBlock offset num_bits (output_list self.new) (take (16 * num_bits) bytes.now)) }
        ensures err { IfErr result (λ fault. (fault ≡ faults.Damaged None)
            × ((docs : List ℕ) → ¬ IsSortedBlock offset num_bits docs (take (16 * num_bits) bytes.now))) }
        ensures count { OnOk result (length (output_list self.new) ≡ block_len) }
        ensures nothing { OnErr result (output_list self.new ≡ []) }
    {
        let consumed = self.checked_block_unsorted(bytes, num_bits)?;
        let Some(docs) = documents_of(self.output_array(), offset) else {
            self.output_len = 0;
            return Err(Fault::Damaged(None));
        };
        self.output = docs;
        Ok(consumed)
    }
}

/// Returns the documents with these strict deltas after `offset`, where all are below 2^32.
fn documents_of(deltas: &[u32], offset: u32) -> Option<[u32; COMPRESSION_BLOCK_SIZE]>
    requires { length deltas.now ≡ block_len }
    ensures some { IfSome result (λ docs. (docs ≡ documents (next_of offset) deltas.now)
        × ((i : ℕ) → slice_index docs i < 2 ^ 32)) }
    ensures none { IfNone result ((i : ℕ) × (2 ^ 32 ≤ slice_index (documents (next_of offset) deltas.now) i)) }
{
    let mut docs = [0; COMPRESSION_BLOCK_SIZE];
    let mut next = least_after(offset);
    for (i, delta) in deltas.iter().enumerate() {
        let doc = next + *delta as u64;
        if doc > u32::MAX as u64 {
            return None;
        }
        docs[i] = doc as u32;
        next = doc + 1;
    }
    Some(docs)
}
