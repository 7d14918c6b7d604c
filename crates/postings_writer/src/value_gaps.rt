//! The positions of the values of one field, and the gap between two of them.

ghost use Rattle.std.specs.Prelude.{◌+◌, ◌<◌, ◌^◌, ◌≡◌, ◌≤◌, IfErr, IfOk, min};
ghost use Rattle.common.specs.Buffers.{token_of_ref};
ghost use Rattle.definitions.specs.declared.fault.Fault.TheVariants as faults;
ghost use Rattle.postings_writer.specs.Texts.{end_of};

use common::TokenRef;
use definitions::Fault;

/// The exclusive upper bound of each position, with its length and the gap after it.
const MAX_POSITION: u32 = 2147483648;

/// Returns the position of `token` in a value that begins at `start`, and its end, which `gap` follows.
pub(crate) fn position_of(start: u32, gap: u32, token: TokenRef<'_>) -> Result<(u32, u32), Fault>
    ensures ok { IfOk result (λ p. (p.0 ≡ start + token.entry.position)
        × (p.1 ≡ start + token.entry.position + token.entry.position_length) × (p.1 + gap < 2 ^ 31)) }
    ensures err { IfErr result (λ fault. (fault ≡ faults.Limit)
        × (2 ^ 31 ≤ end_of gap start (token_of_ref token.entry))) }
{
    let position = below_limit(token.position)?;
    let length = below_limit(token.position_length)?;
    let end = u64::from(start) + u64::from(position) + u64::from(length);
    if end + u64::from(gap) >= u64::from(MAX_POSITION) {
        return Err(Fault::Limit);
    }
    Ok((start + position, end as u32))
}

/// Returns `n`, if it is below 2147483648.
fn below_limit(n: usize) -> Result<u32, Fault>
    ensures ok { IfOk result (λ m. (m ≡ n) × (n < 2 ^ 31)) }
    ensures err { IfErr result (λ fault. (fault ≡ faults.Limit) × (2 ^ 31 ≤ n)) }
{
    if n >= MAX_POSITION as usize {
        return Err(Fault::Limit);
    }
    Ok(n as u32)
}

/// Returns the start of the value after one that ends at `end`, or 2147483648 if that is less.
pub(crate) fn start_after(end: u32, gap: u32) -> u32
    requires { gap < 2 ^ 31 }
    ensures { result ≡ min (2 ^ 31) (min end (2 ^ 31) + gap) }
{
    (end.min(MAX_POSITION) + gap).min(MAX_POSITION)
}
