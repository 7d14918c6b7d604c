//! Numbers in a fixed number of digits.

ghost use Rattle.std.specs.Prelude.{◌++◌, ◌<◌, ◌^◌, ◌≡◌, OnOk, string_bytes};
ghost use Rattle.definitions.specs.Dates.{padded};

use std::alloc::AllocError;

/// Appends `n` in `width` digits, with leading zeros.
pub(crate) fn push_padded(text: &mut String, width: u32, n: u32) -> Result<(), AllocError>
    requires some { 0 < width }
    requires fits { n < 10 ^ width }
    ensures { OnOk result (string_bytes text.new ≡ string_bytes text.old ++ padded width n) }
{
    if width > 1 {
        push_padded(text, width - 1, n / 10)?;
    }
    text.push(char::from(b'0' + (n % 10) as u8))
}
