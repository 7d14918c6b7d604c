//! Blocks of 128 numbers, and of 128 ascending documents, encoded.

ghost use Rattle.std.specs.Prelude.{◌*◌, ◌+◌, ◌<◌, ◌^◌, ◌≡◌, ◌≤◌, length, slice_index, take, ℕ};
ghost use Rattle.definitions.specs.Blocks.{block_len};
ghost use Rattle.layouts.specs.Deltas.{IsAscendingFrom, deltas, next_of};
ghost use Rattle.layouts.specs.PackedBlocks.{IsBlock, IsSortedBlock};

use crate::bit_packer::{pack, width_of};
use crate::block_size::{COMPRESSION_BLOCK_SIZE, compressed_block_size};
use crate::delta_offset::least_after;

/// An encoder of blocks, with room for the bytes of one.
#[derive(Drop)]
pub struct BlockEncoder {
    pub(crate) output: [u8; 640],
}

impl BlockEncoder {
    /// Returns an encoder that has encoded nothing yet.
    pub fn new() -> BlockEncoder {
        BlockEncoder { output: [0; 640] }
    }

    /// Encodes 128 `numbers`; returns their width in bits, and the bytes.
    pub fn compress_block_unsorted(&mut self, numbers: &[u32]) -> (u8, &[u8])
        requires { length numbers.now ≡ block_len }
        ensures { IsBlock result.0 numbers.now result.1.now }
    {
        let width = width_of(numbers);
        pack(numbers, width, &mut self.output);
        let len = 16 * width as usize;
        (width as u8, &self.output[..len])
    }

    /// Encodes 128 ascending documents by their strict deltas; returns the width in bits, and the bytes.
    /// `offset` is the document before them, or 0 where there is none.
    pub fn compress_block_sorted(&mut self, docs: &[u32], offset: u32) -> (u8, &[u8])
        requires count { length docs.now ≡ block_len }
        requires ascending { IsAscendingFrom (next_of offset) docs.now }
        ensures { IsSortedBlock offset result.0 docs.now result.1.now }
    {
        let deltas = deltas_of(docs, offset);
        self.compress_block_unsorted(&deltas)
    }
}

/// Returns the strict deltas of 128 documents after `offset`.
fn deltas_of(docs: &[u32], offset: u32) -> [u32; COMPRESSION_BLOCK_SIZE]
    requires count { length docs.now ≡ block_len }
    requires ascending { IsAscendingFrom (next_of offset) docs.now }
    ensures { result ≡ deltas (next_of offset) docs.now }
{
    let mut deltas = [0; COMPRESSION_BLOCK_SIZE];
    let mut next = least_after(offset);
    for (i, doc) in docs.iter().enumerate() {
        deltas[i] = (*doc as u64 - next) as u32;
        next = *doc as u64 + 1;
    }
    deltas
}
