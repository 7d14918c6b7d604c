//! The part of a weight that a count scores.

ghost use Rattle.std.specs.Prelude.{◌*◌, ◌/◌, ◌<◌, ◌^◌, ◌≡◌, ◌≤◌, nat_lt};
ghost use Rattle.definitions.specs.Scoring.{part};

/// Returns the part of `weight` that `count` scores with `norm`. Divides in 128 bits if the weight times the count
/// doesn't fit in 64.
/// The compiler divides in 32 bits where both fit. No table is filled when a term is opened.
#[inline]
pub(crate) fn part_of_weight(weight: u64, count: u32, norm: u32) -> u64
    ensures { result ≡ part weight count norm }
{
    if count == 0 {
        return 0;
    }
    let whole = u64::from(count) + u64::from(norm);
    match weight.checked_mul(u64::from(count)) {
        Some(product) => product / whole,
        None => wide_part(weight, count, whole),
    }
}

/// Divides `weight` times `count` by `whole`, in 128 bits.
#[inline(never)]
fn wide_part(weight: u64, count: u32, whole: u64) -> u64
    requires some { 0 < whole }
    requires small { count ≤ whole }
    ensures { result ≡ weight * count / whole }
{
    (u128::from(weight) * u128::from(count) / u128::from(whole)) as u64
}

/// Whether the part of `weight` that `count` scores with `norm` is above `bar`. Nothing is divided.
#[inline(always)]
pub(crate) fn part_is_above(weight: u64, count: u32, norm: u32, bar: u64) -> bool
    requires { bar < 2 ^ 63 }
    ensures { result ≡ nat_lt bar (part weight count norm) }
{
    if count == 0 {
        return false;
    }
    let whole = u64::from(count) + u64::from(norm);
    u128::from(bar + 1) * u128::from(whole) <= u128::from(weight) * u128::from(count)
}
