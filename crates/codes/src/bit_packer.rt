//! The bytes of a packed block: the numbers one after another in as few bits as the greatest needs.

ghost use Rattle.std.specs.Prelude.{◌%◌, ◌*◌, ◌+◌, ◌/◌, ◌<◌, ◌^◌, ◌≡◌, ◌≤◌, ◌++◌, length, slice_index, take, ℕ};
ghost use Rattle.std.specs.Int.{to_le_bytes, w32};
ghost use Rattle.definitions.specs.Blocks.{block_len};
ghost use Rattle.layouts.specs.PackedBlocks.{IsLeastWidth};
ghost use lib.Lanes.{number_l};

/// Room for a block of either kind: 128 numbers in as many as five bytes each.
pub(crate) const OUTPUT_LEN: usize = 640;

/// Returns the least width in bits that holds all `numbers`.
pub(crate) fn width_of(numbers: &[u32]) -> u32
    ensures few { result ≤ 32 }
    ensures holds { (i : ℕ) → slice_index numbers.now i < 2 ^ result }
    ensures least { IsLeastWidth result numbers.now }
{
    let mut all = 0u32;
    for n in numbers {
        all |= *n;
    }
    32 - all.leading_zeros()
}

/// Packs `numbers` at `width` bits each into the start of `out`.
pub(crate) fn pack(numbers: &[u32], width: u32, out: &mut [u8; 640])
    requires count { length numbers.now ≡ block_len }
    requires width { width ≤ 32 }
    requires holds { (i : ℕ) → slice_index numbers.now i < 2 ^ width }
    ensures number { number_l 256 (take (16 * width) out.new) ≡ number_l (2 ^ width) numbers.now }
    ensures bytes { (i : ℕ) → slice_index (take (16 * width) out.new) i < 256 }
    ensures room { length out.new ≡ 640 }
{
    let mut waiting: u64 = 0;
    let mut filled = 0;
    let mut words = 0;
    for n in numbers {
        waiting |= (*n as u64) << filled;
        filled += width;
        if filled >= 32 {
            put_word(out, 4 * words, (waiting & 0xffff_ffff) as u32);
            words += 1;
            waiting >>= 32;
            filled -= 32;
        }
    }
}

/// Writes the four bytes of `word` at the offset `at`, the lowest first.
#[inline(always)]
fn put_word(out: &mut [u8; 640], at: usize, word: u32)
    requires { at + 4 ≤ 640 }
    ensures { take (at + 4) out.new ≡ take at out.old ++ to_le_bytes w32 word }
{
    out[at..at + 4].copy_from_slice(&word.to_le_bytes());
}
