//! Blocks of terms.

ghost use Rattle.std.specs.Prelude.{◌%◌, ◌≡◌, nat_eq};
ghost use Rattle.layouts.specs.TermSections.{block_size};

/// Returns how many terms a block has: sixteen in a front-coded section, and one in any other.
pub fn terms_in_block(front_coded: bool) -> u64
    ensures { result ≡ block_size front_coded }
{
    if front_coded { 16 } else { 1 }
}

/// Whether the term of a number is the first of a block; where a section isn't front-coded each is.
pub fn begins_block(front_coded: bool, number: u64) -> bool
    ensures { result ≡ nat_eq (number % block_size front_coded) 0 }
{
    !front_coded || number % 16 == 0
}
