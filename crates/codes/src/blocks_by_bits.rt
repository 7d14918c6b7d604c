//! Packed blocks read a bit at a time, as the layout says it: what the fast readers are measured against.

ghost use Rattle.std.specs.Prelude.{◌%◌, ◌*◌, ◌+◌, ◌/◌, ◌<◌, ◌^◌, ◌≡◌, ◌≤◌, length, slice_index, take, ℕ};
ghost use lib.Lanes.{number_l};
ghost use Rattle.layouts.specs.PackedBlocks.{IsPacked};

use crate::block_size::COMPRESSION_BLOCK_SIZE;

/// Unpacks the block of width `num_bits` at the start of `bytes` into `out`.
pub fn numbers_by_bits(bytes: &[u8], num_bits: u8, out: &mut [u32; COMPRESSION_BLOCK_SIZE])
    requires width { num_bits ≤ 32 }
    requires room { 16 * num_bits ≤ length bytes.now }
    ensures { IsPacked num_bits out.new (take (16 * num_bits) bytes.now) }
{
    for i in 0..COMPRESSION_BLOCK_SIZE {
        out[i] = number_at(bytes, i * num_bits as usize, num_bits);
    }
}

/// Returns the number of `num_bits` bits from the bit `from` on.
fn number_at(bytes: &[u8], from: usize, num_bits: u8) -> u32
    requires width { num_bits ≤ 32 }
    requires room { from + num_bits ≤ 8 * length bytes.now }
    requires few { from < 2 ^ 32 }
    ensures { result ≡ number_l 256 bytes.now / 2 ^ from % 2 ^ num_bits }
{
    let mut number = 0;
    for j in 0..num_bits {
        number |= bit_at(bytes, from + j as usize) << j;
    }
    number
}

/// Returns the bit at `index`.
fn bit_at(bytes: &[u8], index: usize) -> u32
    requires { index < 8 * length bytes.now }
    ensures { result ≡ number_l 256 bytes.now / 2 ^ index % 2 }
{
    (bytes[index / 8] >> (index % 8) & 1) as u32
}
