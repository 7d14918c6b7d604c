//! The numbers of a packed block, unpacked eight at a time at widths that are known to the compiler.

ghost use Rattle.std.specs.Prelude.{◌%◌, ◌*◌, ◌+◌, ◌/◌, ◌<◌, ◌^◌, ◌≡◌, ◌≤◌, length, slice_index, take, ℕ};
ghost use Rattle.definitions.specs.Blocks.{block_len};
ghost use Rattle.codes.specs.BlockFields.{field};
ghost use lib.Lanes.{number_l};

use crate::block_size::COMPRESSION_BLOCK_SIZE;

/// The length of the longest block, with room for a whole word from its last byte on.
const PADDED_LEN: usize = 520;

/// Unpacks the block of `width` bits a number at the start of `bytes` into `out`.
pub(crate) fn unpack(bytes: &[u8], width: u32, out: &mut [u32; COMPRESSION_BLOCK_SIZE])
    requires width { width ≤ 32 }
    requires room { 16 * width ≤ length bytes.now }
    ensures fields { (i : ℕ) → i < block_len → slice_index out.new i
        ≡ field width (number_l 256 (take (16 * width) bytes.now)) i }
    ensures count { length out.new ≡ block_len }
{
    let len = 16 * width as usize;
    if bytes.len() >= len + 8 {
        unpack_wide(bytes, width, out);
    } else {
        let padded = padded(&bytes[..len]);
        unpack_wide(&padded, width, out);
    }
}

/// Returns the bytes of `block`, with zeros after them.
pub(crate) fn padded(block: &[u8]) -> [u8; PADDED_LEN]
    requires { length block.now ≤ 512 }
    ensures begins { take (length block.now) result ≡ block.now }
    ensures bytes { (i : ℕ) → slice_index result i < 256 }
{
    let mut padded = [0; PADDED_LEN];
    padded[..block.len()].copy_from_slice(block);
    padded
}

/// Like `unpack`, but with at least eight bytes after the block.
fn unpack_wide(bytes: &[u8], width: u32, out: &mut [u32; COMPRESSION_BLOCK_SIZE])
    requires width { width ≤ 32 }
    requires room { 16 * width + 8 ≤ length bytes.now }
    ensures { (i : ℕ) → i < block_len → slice_index out.new i ≡ field width (number_l 256 bytes.now) i }
{
    match width {
        0 => unpack_at::<0>(bytes, out),
        1 => unpack_at::<1>(bytes, out),
        2 => unpack_at::<2>(bytes, out),
        3 => unpack_at::<3>(bytes, out),
        4 => unpack_at::<4>(bytes, out),
        5 => unpack_at::<5>(bytes, out),
        6 => unpack_at::<6>(bytes, out),
        7 => unpack_at::<7>(bytes, out),
        8 => unpack_at::<8>(bytes, out),
        9 => unpack_at::<9>(bytes, out),
        10 => unpack_at::<10>(bytes, out),
        11 => unpack_at::<11>(bytes, out),
        12 => unpack_at::<12>(bytes, out),
        13 => unpack_at::<13>(bytes, out),
        14 => unpack_at::<14>(bytes, out),
        15 => unpack_at::<15>(bytes, out),
        16 => unpack_at::<16>(bytes, out),
        17 => unpack_at::<17>(bytes, out),
        18 => unpack_at::<18>(bytes, out),
        19 => unpack_at::<19>(bytes, out),
        20 => unpack_at::<20>(bytes, out),
        21 => unpack_at::<21>(bytes, out),
        22 => unpack_at::<22>(bytes, out),
        23 => unpack_at::<23>(bytes, out),
        24 => unpack_at::<24>(bytes, out),
        25 => unpack_at::<25>(bytes, out),
        26 => unpack_at::<26>(bytes, out),
        27 => unpack_at::<27>(bytes, out),
        28 => unpack_at::<28>(bytes, out),
        29 => unpack_at::<29>(bytes, out),
        30 => unpack_at::<30>(bytes, out),
        31 => unpack_at::<31>(bytes, out),
        32 => unpack_at::<32>(bytes, out),
        _ => unreachable!(),
    }
}

/// Like `unpack_wide`, but at the constant width `W`.
fn unpack_at<const W: usize>(bytes: &[u8], out: &mut [u32; COMPRESSION_BLOCK_SIZE])
    requires width { W ≤ 32 }
    requires room { 16 * W + 8 ≤ length bytes.now }
    ensures { (i : ℕ) → i < block_len → slice_index out.new i ≡ field W (number_l 256 bytes.now) i }
{
    for group in 0..16 {
        for index in 0..8 {
            out[8 * group + index] = field_at::<W>(bytes, group, index);
        }
    }
}

/// Returns the value at `index` of a group of eight.
#[inline(always)]
pub(crate) fn field_at<const W: usize>(bytes: &[u8], group: usize, index: usize) -> u32
    requires width { W ≤ 32 }
    requires room { 16 * W + 8 ≤ length bytes.now }
    requires group { group < 16 }
    requires index { index < 8 }
    ensures { result ≡ field W (number_l 256 bytes.now) (8 * group + index) }
{
    let bit = index * W;
    let word = word_at(bytes, group * W + bit / 8);
    ((word >> (bit % 8)) & ((1 << W) - 1)) as u32
}

/// Returns the eight bytes at the offset `at` as one number, the lowest first.
#[inline(always)]
fn word_at(bytes: &[u8], at: usize) -> u64
    requires { at + 8 ≤ length bytes.now }
    ensures { result ≡ number_l 256 bytes.now / 2 ^ (8 * at) % 2 ^ 64 }
{
    u64::from_le_bytes([
        bytes[at],
        bytes[at + 1],
        bytes[at + 2],
        bytes[at + 3],
        bytes[at + 4],
        bytes[at + 5],
        bytes[at + 6],
        bytes[at + 7],
    ])
}
