//! Blocks of 128 numbers, and of 128 ascending documents, decoded.

ghost use Rattle.std.specs.Prelude.{[], ◌*◌, ◌<◌, ◌^◌, ◌≡◌, ◌≤◌, length, replicate, slice_index, take, List, ℕ};
ghost use Rattle.definitions.specs.Blocks.{block_len};
ghost use Rattle.layouts.specs.Deltas.{IsAscendingFrom, deltas, next_of};
ghost use Rattle.layouts.specs.PackedBlocks.{IsPacked};

use crate::bit_unpacker::unpack;
use crate::block_size::{COMPRESSION_BLOCK_SIZE, compressed_block_size};
use crate::delta_offset::wrapped_after;
use crate::delta_sums::documents;

/// A decoder of blocks, with the numbers that were decoded last.
#[derive(Drop)]
pub struct BlockDecoder {
    pub(crate) output: [u32; COMPRESSION_BLOCK_SIZE],
    pub(crate) output_len: usize,
    ghost within: { output_len ≤ block_len },
}

impl BlockDecoder {
    ghost use Rattle.codes.specs.DecodedBlocks.{output_list, output_numbers};

    /// Returns a decoder that has decoded nothing yet, with `val` at each of its 128 indices.
    pub fn with_val(val: u32) -> BlockDecoder
        ensures nothing { output_list result ≡ [] }
        ensures outputs { output_numbers result ≡ replicate block_len val }
    {
        BlockDecoder {
            output: [val; COMPRESSION_BLOCK_SIZE],
            output_len: 0,
        }
    }

    /// Decodes the block of width `num_bits` at the start of `bytes`, whatever follows it.
    /// Returns how many bytes the block takes.
    pub fn uncompress_block_unsorted(&mut self, bytes: &[u8], num_bits: u8) -> usize
        requires width { num_bits ≤ 32 }
        requires room { 16 * num_bits ≤ length bytes.now }
        ensures numbers { IsPacked num_bits (output_list self.new) (take (16 * num_bits) bytes.now) }
        ensures consumed { result ≡ 16 * num_bits }
    {
        unpack(bytes, num_bits as u32, &mut self.output);
        self.output_len = COMPRESSION_BLOCK_SIZE;
        compressed_block_size(num_bits)
    }

    /// Decodes a block of ascending documents from their strict deltas; returns how many bytes it takes.
    /// `offset` is the document before the block, or 0 where there is none.
    ///
    /// Documents that aren't all below 2^32 decode to meaningless numbers.
    pub fn uncompress_block_sorted(&mut self, bytes: &[u8], offset: u32, num_bits: u8) -> usize
        requires width { num_bits ≤ 32 }
        requires room { 16 * num_bits ≤ length bytes.now }
        ensures documents { (docs : List ℕ) → IsAscendingFrom (next_of offset) docs
            → ((i : ℕ) → slice_index docs i < 2 ^ 32)
            → IsPacked num_bits (deltas (next_of offset) docs) (take (16 * num_bits) bytes.now)
            → output_list self.new ≡ docs }
        ensures length { length (output_list self.new) ≡ block_len }
        ensures consumed { result ≡ 16 * num_bits }
    {
        documents(
            bytes,
            num_bits as u32,
            wrapped_after(offset),
            &mut self.output,
        );
        self.output_len = COMPRESSION_BLOCK_SIZE;
        compressed_block_size(num_bits)
    }

    /// Returns the numbers that were decoded last.
    pub fn output_array(&self) -> &[u32]
        ensures { result.now ≡ output_list self.now }
    {
        &self.output[..self.output_len]
    }

    /// Returns the number at `index` of the 128, of which the numbers decoded last come first.
    pub fn output(&self, index: usize) -> u32
        requires { index < block_len }
        ensures { result ≡ slice_index (output_numbers self.now) index }
    {
        self.output[index]
    }
}
