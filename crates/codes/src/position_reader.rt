//! Positions of a term, decoded from their bytes.

ghost use Rattle.std.specs.Prelude.{◌*◌, ◌+◌, ◌<◌, ◌^◌, ◌≡◌, ◌≤◌, ◌++◌, ◌-◌, ◌↔◌, [], IfErr, IfOk, IsTrue, List, None, OnErr, OnOk, Some, drop, length, min, sum, take, vec_capacity, ℕ};
ghost use Rattle.codes.specs.DecodedBlocks.{output_list};
ghost use Rattle.codes.specs.PositionPlaces.{places};
ghost use Rattle.codes.specs.PositionBlocks.{AreSmall, HasAll, HasBlocks, Holds, numbers_in, packed_len};
ghost use Rattle.layouts.specs.Positions.{AreBlocks, ArePositions};
ghost use Rattle.layouts.specs.VintBlocks.{take_all_numbers};
ghost use Rattle.definitions.specs.Blocks.{block_len};
ghost use Rattle.definitions.specs.declared.fault.Fault.TheVariants as faults;

use crate::bit_packer::width_of;
use crate::block_decoder::BlockDecoder;
use crate::block_size::{COMPRESSION_BLOCK_SIZE, compressed_block_size};
use crate::vint::VIntDecoder;
use common::take_bytes;
use definitions::Fault;
use std::alloc::AllocError;
use std::marker::Model;

/// The positions of a term, borrowed from their bytes. The block that was decoded last is kept, so that reads that
/// ascend decode each block once. Seen as the numbers: for each document its first position, and then the
/// differences.
#[derive(Drop)]
pub struct PositionReader<'a> {
    widths: &'a [u8],
    packed: &'a [u8],
    decoder: BlockDecoder,
    block: usize,
    at: usize,
}

impl<'a> Model for PositionReader<'a> {
    ghost use Rattle.std.specs.Prelude.{List, ℕ};
    ghost use Rattle.codes.specs.DecodedBlocks.{output_list};
    ghost use Rattle.codes.specs.PositionBlocks.{Holds, numbers_in};

    ghost Value = { List ℕ };

    ghost view = { λ r. numbers_in r.widths.now r.packed.now };

    ghost invariant = { λ r. Holds r.widths.now r.packed.now (output_list r.decoder) r.block r.at };
}

impl<'a> PositionReader<'a> {
    /// Opens a term's positions in `bytes`, which are known to be in their layout; the first block is decoded.
    pub fn new(bytes: &'a [u8]) -> PositionReader<'a>
        requires { ∥ ((numbers : List ℕ) × ArePositions numbers bytes.now) ∥₁ }
        ensures { (numbers : List ℕ) → ArePositions numbers bytes.now → result ≡ numbers }
    {
        let Ok((widths, packed)) = take_bytes(bytes) else {
            unreachable!()
        };
        let mut decoder = BlockDecoder::with_val(0);
        decode(widths, packed, 0, 0, &mut decoder);
        PositionReader {
            widths,
            packed,
            decoder,
            block: 0,
            at: 0,
        }
    }

    /// Opens a term's positions in `bytes`; other bytes are `Damaged`. Every block is checked.
    pub fn open(bytes: &'a [u8]) -> Result<PositionReader<'a>, Fault>
        ensures ok { IfOk result (λ reader. ArePositions reader bytes.now) }
        ensures one { IfOk result (λ reader. (numbers : List ℕ) → ArePositions numbers bytes.now → numbers ≡ reader) }
        ensures err { IfErr result (λ fault. (fault ≡ faults.Damaged None)
            × ((numbers : List ℕ) → ArePositions numbers bytes.now → ⊥)) }
    {
        let (widths, packed) = take_bytes(bytes)?;
        let mut decoder = BlockDecoder::with_val(0);
        let at = checked_blocks(widths, packed, &mut decoder)?;
        checked_rest(&packed[at..], &mut decoder)?;
        Ok(PositionReader {
            widths,
            packed,
            decoder,
            block: widths.len(),
            at,
        })
    }

    /// Returns how many numbers there are. Passes the widths of all blocks that follow, and decodes the rest.
    pub fn num_positions(&self) -> u128
        ensures { result ≡ length self.now }
    {
        let blocks = self.widths.len();
        let at = offset_of(self.widths, self.block, self.at, blocks);
        let mut rest = BlockDecoder::with_val(0);
        decode(self.widths, self.packed, blocks, at, &mut rest);
        blocks as u128 * COMPRESSION_BLOCK_SIZE as u128 + rest.output_array().len() as u128
    }

    /// Reads as many numbers as `output` has, from index `offset` on.
    pub fn read(&mut self, offset: u64, output: &mut [u32])
        requires { offset + length output.old ≤ length self.old }
        ensures read { output.new ≡ take (length output.old) (drop offset self.old) }
        ensures same { self.new ≡ self.old }
    {
        let mut filled = 0;
        while filled < output.len() {
            let ahead = (offset % COMPRESSION_BLOCK_SIZE as u64) as usize + filled;
            load(
                self.widths,
                self.packed,
                &mut self.decoder,
                &mut self.block,
                &mut self.at,
                (offset / COMPRESSION_BLOCK_SIZE as u64) as usize + ahead / COMPRESSION_BLOCK_SIZE,
            );
            filled = copy_from(
                self.decoder.output_array(),
                ahead % COMPRESSION_BLOCK_SIZE,
                output,
                filled,
            );
        }
    }

    /// Appends `count` positions to `output`: the running sums of the numbers from index `begin` on, added to `offset`.
    pub fn append_places(
        &mut self,
        begin: u64,
        count: usize,
        offset: u32,
        output: &mut Vec<u32>,
    ) -> Result<(), AllocError>
        requires within { begin + count ≤ length self.old }
        requires fits { offset + sum (take count (drop begin self.old)) ≤ 4294967295 }
        ensures same { self.new ≡ self.old }
        ensures ok { OnOk result (output.new.items
            ≡ output.old.items ++ places offset (take count (drop begin self.old))) }
        ensures err { OnErr result (output.new.items ≡ output.old.items) }
        ensures full { OnErr result (vec_capacity output.old < length output.old.items + count) }
        ensures room { vec_capacity output.old ≤ vec_capacity output.new }
    {
        output.reserve(count)?;
        let mut last = offset;
        let mut taken = 0;
        while taken < count {
            let ahead = (begin % COMPRESSION_BLOCK_SIZE as u64) as usize + taken;
            load(
                self.widths,
                self.packed,
                &mut self.decoder,
                &mut self.block,
                &mut self.at,
                (begin / COMPRESSION_BLOCK_SIZE as u64) as usize + ahead / COMPRESSION_BLOCK_SIZE,
            );
            let part = part_from(
                self.decoder.output_array(),
                ahead % COMPRESSION_BLOCK_SIZE,
                count - taken,
            );
            last = push_positions(part, last, output);
            taken += part.len();
        }
        Ok(())
    }
}

/// Returns the numbers from `index` on, `most` at most.
#[inline]
fn part_from(numbers: &[u32], index: usize, most: usize) -> &[u32]
    requires { index ≤ length numbers.now }
    ensures { result.now ≡ take (min most (length numbers.now - index)) (drop index numbers.now) }
{
    let count = most.min(numbers.len() - index);
    &numbers[index..index + count]
}

/// Appends the running sums of `numbers`, added to `before`, to `output`, which has the room; returns the last.
#[inline]
fn push_positions(numbers: &[u32], before: u32, output: &mut Vec<u32>) -> u32
    requires fits { before + sum numbers.now ≤ 4294967295 }
    requires room { length output.old.items + length numbers.now ≤ vec_capacity output.old }
    ensures items { output.new.items ≡ output.old.items ++ places before numbers.now }
    ensures last { result ≡ before + sum numbers.now }
    ensures room { vec_capacity output.new ≡ vec_capacity output.old }
{
    let mut last = before;
    for i in 0..numbers.len() {
        last += numbers[i];
        output.push_reserved(last);
    }
    last
}

/// Decodes fewer than 128 numbers below 2^31 up to the end of `bytes`.
fn checked_rest(bytes: &[u8], decoder: &mut BlockDecoder) -> Result<(), Fault>
    ensures ok { OnOk result (AreBlocks [] (output_list decoder.new) bytes.now × AreSmall (output_list decoder.new)
        × (take_all_numbers block_len bytes.now ≡ Some (output_list decoder.new))) }
    ensures err { IfErr result (λ fault. (fault ≡ faults.Damaged None)
        × ((numbers : List ℕ) → AreBlocks [] numbers bytes.now → AreSmall numbers → ⊥)) }
{
    decoder.try_uncompress_vint_unsorted_until_end(bytes)?;
    if !is_rest(decoder.output_array()) {
        return Err(Fault::Damaged(None));
    }
    Ok(())
}

/// Whether there are fewer than 128 numbers, each below 2^31.
fn is_rest(numbers: &[u32]) -> bool
    ensures { IsTrue result ↔ ((length numbers.now < block_len) × AreSmall numbers.now) }
{
    numbers.len() < COMPRESSION_BLOCK_SIZE && are_small(numbers)
}

/// Whether each number is below 2^31.
fn are_small(numbers: &[u32]) -> bool
    ensures { IsTrue result ↔ AreSmall numbers.now }
{
    width_of(numbers) <= 31
}

/// Decodes the block `wanted`, unless it is the one that is held.
fn load(
    widths: &[u8],
    packed: &[u8],
    decoder: &mut BlockDecoder,
    block: &mut usize,
    at: &mut usize,
    wanted: usize,
)
    requires holds { Holds widths.now packed.now (output_list decoder.old) block.old at.old }
    requires within { wanted ≤ length widths.now }
    ensures holds { Holds widths.now packed.now (output_list decoder.new) block.new at.new }
    ensures wanted { block.new ≡ wanted }
{
    if wanted == *block {
        return;
    }
    *at = if wanted < *block {
        offset_of(widths, 0, 0, wanted)
    } else {
        offset_of(widths, *block, *at, wanted)
    };
    *block = wanted;
    decode(widths, packed, wanted, *at, decoder);
}

/// Returns the offset of `block`, counted on from the block `from` at the offset `at`.
fn offset_of(widths: &[u8], from: usize, at: usize, block: usize) -> usize
    requires order { from ≤ block }
    requires within { block ≤ length widths.now }
    requires offset { at ≡ packed_len (take from widths.now) }
    requires few { packed_len widths.now < 2 ^ 64 }
    ensures { result ≡ packed_len (take block widths.now) }
{
    let mut offset = at;
    for passed in from..block {
        offset += compressed_block_size(widths[passed]);
    }
    offset
}

/// Decodes `block`, or the rest after the blocks, at the offset `at`.
fn decode(widths: &[u8], packed: &[u8], block: usize, at: usize, decoder: &mut BlockDecoder)
    requires blocks { HasBlocks widths.now packed.now }
    requires within { block ≤ length widths.now }
    requires offset { at ≡ packed_len (take block widths.now) }
    requires begins { at ≤ length packed.now }
    ensures { output_list decoder.new ≡ take block_len (drop (block_len * block) (numbers_in widths.now packed.now)) }
{
    let bytes = &packed[at..];
    if block < widths.len() {
        decoder.uncompress_block_unsorted(bytes, widths[block]);
    } else {
        decoder.uncompress_vint_unsorted_until_end(bytes);
    }
}

/// Checks a block of numbers below 2^31 for each width, where `decoder` holds the last; returns the offset after them.
fn checked_blocks(widths: &[u8], packed: &[u8], decoder: &mut BlockDecoder) -> Result<usize, Fault>
    ensures ok { IfOk result (λ at. HasAll widths.now packed.now at) }
    ensures err { IfErr result (λ fault. (fault ≡ faults.Damaged None)
        × ((numbers : List ℕ) → AreBlocks widths.now numbers packed.now → AreSmall numbers → ⊥)) }
{
    let mut at = 0;
    for width in widths {
        let consumed = decoder.checked_block_unsorted(&packed[at..], *width)?;
        if *width > 31 {
            return Err(Fault::Damaged(None));
        }
        at += consumed;
    }
    Ok(at)
}

/// Copies numbers from `index` on into `output` from `filled` on, as many as fit; returns how many fill it then.
fn copy_from(numbers: &[u32], index: usize, output: &mut [u32], filled: usize) -> usize
    requires index { index ≤ length numbers.now }
    requires filled { filled ≤ length output.old }
    ensures within { (filled ≤ result) × (result ≤ length output.old) }
    ensures some { index < length numbers.now → filled < length output.old → filled < result }
    ensures long { length output.new ≡ length output.old }
    ensures room { result - filled ≤ length numbers.now - index }
    ensures copied { take result output.new
        ≡ take filled output.old ++ take (result - filled) (drop index numbers.now) }
{
    let count = (output.len() - filled).min(numbers.len() - index);
    output[filled..filled + count].copy_from_slice(&numbers[index..index + count]);
    filled + count
}
