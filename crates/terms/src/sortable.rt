//! Signed numbers as numbers whose bytes sort like them.

ghost use Rattle.std.specs.Prelude.{pos, nat_abs, ◌+ℤ◌, ◌^◌, ◌≡◌};

/// 2^63, the value of the sign bit.
pub const SIGN_BIT: u64 = 0x8000_0000_0000_0000;

/// Returns the number with its sign bit flipped, so that negative numbers come first.
pub(crate) fn signed_number(value: i64) -> u64
    ensures { result ≡ nat_abs (value +ℤ pos (2 ^ 63)) }
{
    value.cast_unsigned().wrapping_add(SIGN_BIT)
}
