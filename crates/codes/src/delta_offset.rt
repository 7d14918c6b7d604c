//! The least document after an offset, which is the document before, or 0 where there is none.

ghost use Rattle.std.specs.Prelude.{◌%◌, ◌^◌, ◌≡◌, ◌≤◌};
ghost use Rattle.layouts.specs.Deltas.{next_of};

/// Returns the least document after `offset`.
pub(crate) fn least_after(offset: u32) -> u64
    ensures least { result ≡ next_of offset }
    ensures few { result ≤ 2 ^ 32 }
{
    if offset == 0 { 0 } else { offset as u64 + 1 }
}

/// Like `least_after`, but modulo 2^32.
pub(crate) fn wrapped_after(offset: u32) -> u32
    ensures { result ≡ next_of offset % 2 ^ 32 }
{
    if offset == 0 {
        0
    } else {
        offset.wrapping_add(1)
    }
}
