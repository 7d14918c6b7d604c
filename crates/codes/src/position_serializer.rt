//! Positions of terms, encoded as bytes.

ghost use Rattle.std.specs.Prelude.{[], ◌++◌, ◌<◌, ◌≡◌, ◌^◌, List, OnErr, OnOk, length, slice_index, ℕ};
ghost use Rattle.layouts.specs.Positions.{AreBlocks, ArePositions};

use crate::block_encoder::BlockEncoder;
use crate::block_size::COMPRESSION_BLOCK_SIZE;
use crate::vint::VIntEncoder;
use common::put_bytes;
use std::alloc::{AllocError, Global};
use std::marker::Model;

/// The positions of terms, term by term. The numbers of a term are pending until it is closed. A refused call changes
/// nothing. Seen as the bytes of the closed terms, and the pending numbers.
#[derive(Drop)]
pub struct PositionSerializer {
    out: Vec<u8>,
    waiting: Vec<u32>,
    widths: Vec<u8>,
    packed: Vec<u8>,
    // The bytes of the term that is closed.
    term: Vec<u8>,
    encoder: BlockEncoder,
}

impl Model for PositionSerializer {
    ghost use Rattle.std.specs.Prelude.{List, ℕ};
    ghost use Rattle.codes.specs.PositionBlocks.{AreSmall};

    ghost Value = { List ℕ × List ℕ };

    ghost view = { λ s. (s.out.items, s.waiting.items) };

    ghost invariant = { λ s. AreSmall s.waiting.items };
}

impl PositionSerializer {
    /// Returns a serializer that appends to `write`.
    pub fn new(alloc: Global, write: Vec<u8>) -> PositionSerializer
        ensures { result ≡ (write.items, []) }
    {
        PositionSerializer {
            out: write,
            waiting: Vec::new(alloc),
            widths: Vec::new(alloc),
            packed: Vec::new(alloc),
            term: Vec::new(alloc),
            encoder: BlockEncoder::new(),
        }
    }

    /// Returns how many bytes there are.
    pub fn written_bytes(&self) -> u64
        ensures { result ≡ length self.now.0 }
    {
        self.out.len() as u64
    }

    /// Adds the positions of a document to its term: the first as it is, and then the differences.
    pub fn write_positions_delta(&mut self, positions_delta: &[u32]) -> Result<(), AllocError>
        requires { (i : ℕ) → slice_index positions_delta.now i < 2 ^ 31 }
        ensures ok { OnOk result (self.new ≡ (self.old.0, self.old.1 ++ positions_delta.now)) }
        ensures refused { OnErr result (self.new ≡ self.old) }
    {
        self.waiting.extend_from_slice(positions_delta)
    }

    /// Drops the pending numbers of a term; another begins.
    pub fn clear(&mut self)
        ensures { self.new ≡ (self.old.0, []) }
    {
        self.waiting.clear();
    }

    /// Appends the positions of the term, and begins another.
    pub fn close_term(&mut self) -> Result<(), AllocError>
        ensures ok { OnOk result ((bytes : List ℕ) × ArePositions self.old.1 bytes
            × (self.new ≡ (self.old.0 ++ bytes, []))) }
        ensures refused { OnErr result (self.new ≡ self.old) }
    {
        self.widths.clear();
        self.packed.clear();
        put_blocks(
            &mut self.encoder,
            &self.waiting,
            &mut self.widths,
            &mut self.packed,
        )?;
        self.term.clear();
        put_bytes(&mut self.term, &self.widths)?;
        self.term.extend_from_slice(&self.packed)?;
        self.out.extend_from_slice(&self.term)?;
        self.waiting.clear();
        Ok(())
    }

    /// Returns the bytes of the terms that were closed.
    pub fn close(self) -> Vec<u8>
        ensures { result.items ≡ self.0 }
    {
        self.out
    }
}

/// Encodes `numbers`: the widths of their blocks into `widths`, the blocks and the rest into `packed`.
fn put_blocks(
    encoder: &mut BlockEncoder,
    numbers: &[u32],
    widths: &mut Vec<u8>,
    packed: &mut Vec<u8>,
) -> Result<(), AllocError>
    requires widths { widths.old.items ≡ [] }
    requires packed { packed.old.items ≡ [] }
    ensures { OnOk result (AreBlocks widths.new.items numbers.now packed.new.items) }
{
    let mut rest = numbers;
    while rest.len() >= COMPRESSION_BLOCK_SIZE {
        let (block, after) = rest.split_at(COMPRESSION_BLOCK_SIZE);
        let (width, bytes) = encoder.compress_block_unsorted(block);
        widths.push(width)?;
        packed.extend_from_slice(bytes)?;
        rest = after;
    }
    encoder.compress_vint_unsorted(packed, rest)?;
    Ok(())
}
