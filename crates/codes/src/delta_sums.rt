//! The documents of a packed block of strict deltas, summed as the values are unpacked.

ghost use Rattle.std.specs.Prelude.{◌%◌, ◌*◌, ◌+◌, ◌/◌, ◌<◌, ◌^◌, ◌≡◌, ◌≤◌, length, slice_index, take, ℕ};
ghost use Rattle.definitions.specs.Blocks.{block_len};
ghost use Rattle.codes.specs.BlockFields.{document, field};
ghost use lib.Lanes.{number_l};

use crate::bit_unpacker::{field_at, padded};
use crate::block_size::COMPRESSION_BLOCK_SIZE;

/// Unpacks the documents whose strict deltas are the numbers of the block, each modulo 2^32.
pub(crate) fn documents(
    bytes: &[u8],
    width: u32,
    next: u32,
    out: &mut [u32; COMPRESSION_BLOCK_SIZE],
)
    requires width { width ≤ 32 }
    requires room { 16 * width ≤ length bytes.now }
    ensures documents { (i : ℕ) → i < block_len → slice_index out.new i
        ≡ document next (field width (number_l 256 (take (16 * width) bytes.now))) i }
    ensures count { length out.new ≡ block_len }
{
    let len = 16 * width as usize;
    if bytes.len() >= len + 8 {
        documents_wide(bytes, width, next, out);
    } else {
        let padded = padded(&bytes[..len]);
        documents_wide(&padded, width, next, out);
    }
}

/// Like `documents`, but with at least eight bytes after the block.
fn documents_wide(bytes: &[u8], width: u32, next: u32, out: &mut [u32; COMPRESSION_BLOCK_SIZE])
    requires width { width ≤ 32 }
    requires room { 16 * width + 8 ≤ length bytes.now }
    ensures { (i : ℕ) → i < block_len → slice_index out.new i ≡ document next (field width (number_l 256 bytes.now)) i }
{
    match width {
        0 => documents_at::<0>(bytes, next, out),
        1 => documents_at::<1>(bytes, next, out),
        2 => documents_at::<2>(bytes, next, out),
        3 => documents_at::<3>(bytes, next, out),
        4 => documents_at::<4>(bytes, next, out),
        5 => documents_at::<5>(bytes, next, out),
        6 => documents_at::<6>(bytes, next, out),
        7 => documents_at::<7>(bytes, next, out),
        8 => documents_at::<8>(bytes, next, out),
        9 => documents_at::<9>(bytes, next, out),
        10 => documents_at::<10>(bytes, next, out),
        11 => documents_at::<11>(bytes, next, out),
        12 => documents_at::<12>(bytes, next, out),
        13 => documents_at::<13>(bytes, next, out),
        14 => documents_at::<14>(bytes, next, out),
        15 => documents_at::<15>(bytes, next, out),
        16 => documents_at::<16>(bytes, next, out),
        17 => documents_at::<17>(bytes, next, out),
        18 => documents_at::<18>(bytes, next, out),
        19 => documents_at::<19>(bytes, next, out),
        20 => documents_at::<20>(bytes, next, out),
        21 => documents_at::<21>(bytes, next, out),
        22 => documents_at::<22>(bytes, next, out),
        23 => documents_at::<23>(bytes, next, out),
        24 => documents_at::<24>(bytes, next, out),
        25 => documents_at::<25>(bytes, next, out),
        26 => documents_at::<26>(bytes, next, out),
        27 => documents_at::<27>(bytes, next, out),
        28 => documents_at::<28>(bytes, next, out),
        29 => documents_at::<29>(bytes, next, out),
        30 => documents_at::<30>(bytes, next, out),
        31 => documents_at::<31>(bytes, next, out),
        32 => documents_at::<32>(bytes, next, out),
        _ => unreachable!(),
    }
}

/// Like `documents_wide`, but at the constant width `W`.
fn documents_at<const W: usize>(bytes: &[u8], next: u32, out: &mut [u32; COMPRESSION_BLOCK_SIZE])
    requires width { W ≤ 32 }
    requires room { 16 * W + 8 ≤ length bytes.now }
    ensures { (i : ℕ) → i < block_len → slice_index out.new i ≡ document next (field W (number_l 256 bytes.now)) i }
{
    let mut least = next;
    for group in 0..16 {
        for index in 0..8 {
            let doc = least.wrapping_add(field_at::<W>(bytes, group, index));
            out[8 * group + index] = doc;
            least = doc.wrapping_add(1);
        }
    }
}
