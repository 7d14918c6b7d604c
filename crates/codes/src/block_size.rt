//! The size of a block, in numbers and in bytes.

ghost use Rattle.std.specs.Prelude.{◌*◌, ◌≡◌};

/// How many numbers a block has.
pub const COMPRESSION_BLOCK_SIZE: usize = 128;

/// Returns how many bytes a block takes at the width `num_bits`.
pub fn compressed_block_size(num_bits: u8) -> usize
    ensures { result ≡ 16 * num_bits }
{
    COMPRESSION_BLOCK_SIZE / 8 * num_bits as usize
}
