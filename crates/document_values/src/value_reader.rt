//! Values decoded from the bytes that hold them.

ghost use Rattle.std.specs.Prelude.{[], ◌≡◌, ◌∷◌, IfErr, IfOk, MatchOption, None, Some, suc};
ghost use Rattle.definitions.specs.declared.fault.Fault.TheVariants as faults;
ghost use Rattle.document_values.specs.Docs.{IsWhole};
ghost use Rattle.document_values.specs.Shown.{value_of};
ghost use Rattle.layouts.specs.DocumentReading.{items_at, skip_many, take_any, take_held, take_member, take_pair, take_value};

use crate::compact_value::CompactDocValue;
use crate::heads::{Head, take_head};
use crate::iterators::{CompactDocArrayIter, CompactDocObjectIter};
use common::{take_text, take_u32};
use definitions::Fault;

/// Deeper than any value in memory.
const DEEPEST: usize = 18446744073709551615;

/// How deep values that are indexed, or in the binary form, may nest.
pub const MAX_NESTING: usize = 128;

/// Decodes the value at the start of `bytes` in the binary form; returns it, and the bytes after it. Bytes that begin
/// with none are `Damaged`, and so is a value that nests more than 128 deep, which is refused before going deeper.
pub fn take_value(bytes: &[u8]) -> Result<(CompactDocValue<'_>, &[u8]), Fault>
    ensures ok { IfOk result (λ p. take_value bytes.now ≡ Some (value_of p.0, p.1.now)) }
    ensures err { IfErr result (λ fault. (fault ≡ faults.Damaged None) × (take_value bytes.now ≡ None)) }
{
    take(false, MAX_NESTING, bytes)
}

/// Decodes the value at the start of `bytes` as a document holds it; returns it, and the bytes after it.
#[tactic(auto, unfolding(layouts::specs::DocumentReading::take_any))]
pub(crate) fn take_any(bytes: &[u8]) -> Result<(CompactDocValue<'_>, &[u8]), Fault>
    ensures ok { IfOk result (λ p. take_any bytes.now ≡ Some (value_of p.0, p.1.now)) }
    ensures err { IfErr result (λ fault. (fault ≡ faults.Damaged None) × (take_any bytes.now ≡ None)) }
{
    take(true, DEEPEST, bytes)
}

/// Skips `count` pairs of the binary form; returns the bytes after them.
pub fn skip_pairs(count: u64, bytes: &[u8]) -> Result<&[u8], Fault>
    ensures ok { IfOk result (λ rest. skip_many (take_pair take_value) count bytes.now ≡ Some rest.now) }
    ensures err { IfErr result (λ fault. (fault ≡ faults.Damaged None)
        × (skip_many (take_pair take_value) count bytes.now ≡ None)) }
{
    let mut rest = bytes;
    let mut left = count;
    while left > 0 {
        let (_, behind) = take_u32(rest)?;
        let (_, after) = take_value(behind)?;
        rest = after;
        left -= 1;
    }
    Ok(rest)
}

/// Decodes the value at the start of `bytes`; returns it, and the bytes after it. It nests at most `depth` deep, and is
/// refused before going deeper.
#[cycle(take)]
pub(crate) fn take(
    tokens: bool,
    depth: usize,
    bytes: &[u8],
) -> Result<(CompactDocValue<'_>, &[u8]), Fault>
    ensures ok { IfOk result (λ p. take_held tokens depth bytes.now ≡ Some (value_of p.0, p.1.now)) }
    ensures err { IfErr result (λ fault. (fault ≡ faults.Damaged None) × (take_held tokens depth bytes.now ≡ None)) }
{
    let (head, rest) = take_head(tokens, bytes)?;
    match head {
        Head::Leaf(value) => Ok((value, rest)),
        Head::Array(count) => {
            let depth = inner(depth)?;
            let after = skip_values(tokens, depth, count, rest)?;
            let values = CompactDocArrayIter::new(tokens, depth, count, rest);
            Ok((CompactDocValue::Array(values), after))
        }
        Head::Object(count) => {
            let depth = inner(depth)?;
            let after = skip_members(tokens, depth, count, rest)?;
            let members = CompactDocObjectIter::new(tokens, depth, count, rest);
            Ok((CompactDocValue::Object(members), after))
        }
    }
}

/// Decodes the value at the start of `bytes`, which hold it whole; its end isn't looked for. So a walk down values that
/// are each the last of their array or object passes each byte once.
pub(crate) fn take_last(tokens: bool, depth: usize, bytes: &[u8]) -> Option<CompactDocValue<'_>>
    requires { IsWhole (take_held tokens depth) 1 bytes.now }
    ensures { MatchOption result (items_at (take_held tokens depth) 1 bytes.now ≡ [])
        (λ value. items_at (take_held tokens depth) 1 bytes.now ≡ value_of value ∷ []) }
{
    let (head, rest) = take_head(tokens, bytes).ok()?;
    match head {
        Head::Leaf(value) => Some(value),
        Head::Array(count) => {
            let depth = depth.checked_sub(1)?;
            let values = CompactDocArrayIter::new(tokens, depth, count, rest);
            Some(CompactDocValue::Array(values))
        }
        Head::Object(count) => {
            let depth = depth.checked_sub(1)?;
            let members = CompactDocObjectIter::new(tokens, depth, count, rest);
            Some(CompactDocValue::Object(members))
        }
    }
}

/// Returns how deep values may nest inside of one.
fn inner(depth: usize) -> Result<usize, Fault>
    ensures ok { IfOk result (λ d. depth ≡ suc d) }
    ensures err { IfErr result (λ fault. (fault ≡ faults.Damaged None) × (depth ≡ 0)) }
{
    depth.checked_sub(1).ok_or(Fault::Damaged(None))
}

/// Skips `count` values; returns the bytes after them.
#[cycle(take)]
fn skip_values(tokens: bool, depth: usize, count: u64, bytes: &[u8]) -> Result<&[u8], Fault>
    ensures ok { IfOk result (λ rest. skip_many (take_held tokens depth) count bytes.now ≡ Some rest.now) }
    ensures err { IfErr result (λ fault. (fault ≡ faults.Damaged None)
        × (skip_many (take_held tokens depth) count bytes.now ≡ None)) }
{
    let mut rest = bytes;
    let mut left = count;
    while left > 0 {
        let (_, after) = take(tokens, depth, rest)?;
        rest = after;
        left -= 1;
    }
    Ok(rest)
}

/// Skips `count` members; returns the bytes after them.
#[cycle(take)]
fn skip_members(tokens: bool, depth: usize, count: u64, bytes: &[u8]) -> Result<&[u8], Fault>
    ensures ok { IfOk result (λ rest. skip_many (take_member (take_held tokens depth)) count bytes.now
        ≡ Some rest.now) }
    ensures err { IfErr result (λ fault. (fault ≡ faults.Damaged None)
        × (skip_many (take_member (take_held tokens depth)) count bytes.now ≡ None)) }
{
    let mut rest = bytes;
    let mut left = count;
    while left > 0 {
        let (_, behind) = take_text(rest)?;
        let (_, after) = take(tokens, depth, behind)?;
        rest = after;
        left -= 1;
    }
    Ok(rest)
}
