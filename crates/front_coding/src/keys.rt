//! Keys behind the ones before.

ghost use Rattle.std.specs.Prelude.{◌++◌, ◌≡◌, ◌≢◌, ◌≤◌, IfErr, IfOk, None, OnErr, OnOk, Some, length, take};
ghost use Rattle.definitions.specs.declared.fault.Fault.TheVariants as faults;
ghost use Rattle.layouts.specs.TermSections.{before_in_block, block_size, key_bytes, next_key, shared};
ghost use Rattle.front_coding.specs.TakenKeys.{is_next, take_next_key};

use crate::blocks::begins_block;
use crate::short_codes::{take_bytes, take_vint};
use common::{put_bytes, put_vint};
use definitions::Fault;
use std::alloc::AllocError;

/// Returns with how many bytes two keys begin alike.
pub(crate) fn shared_len(before: &[u8], key: &[u8]) -> usize
    ensures value { result ≡ shared before.now key.now }
    ensures within { (result ≤ length before.now) × (result ≤ length key.now) }
{
    let mut index = 0;
    while index < before.len() && index < key.len() && before[index] == key[index] {
        index += 1;
    }
    index
}

/// Appends the key of the term of a number: whole where it is a block's first, and else how much it shares with the one
/// before, and the rest.
pub fn put_key(
    out: &mut Vec<u8>,
    front_coded: bool,
    number: u64,
    before: &[u8],
    key: &[u8],
) -> Result<(), AllocError>
    ensures ok { OnOk result (out.new.items
        ≡ out.old.items ++ key_bytes (before_in_block (block_size front_coded) number before.now) key.now) }
    ensures err { OnErr result (take (length out.old.items) out.new.items ≡ out.old.items) }
{
    if begins_block(front_coded, number) {
        return put_bytes(out, key);
    }
    put_next_key(out, before, key)
}

/// Appends a key behind the one before: how much it shares with it, and the rest.
fn put_next_key(out: &mut Vec<u8>, before: &[u8], key: &[u8]) -> Result<(), AllocError>
    ensures ok { OnOk result (out.new.items ≡ out.old.items ++ next_key before.now key.now) }
    ensures err { OnErr result (take (length out.old.items) out.new.items ≡ out.old.items) }
{
    let alike = shared_len(before, key);
    put_vint(out, alike as u64)?;
    put_bytes(out, &key[alike..])
}

/// Whether so much of the key before, and this rest, make the key of a term behind it, and no more is shared.
fn is_next(before: &[u8], alike: usize, rest: &[u8]) -> bool
    ensures { result ≡ is_next before.now alike rest.now }
{
    let Some(first) = rest.first() else {
        return false;
    };
    match before.get(alike) {
        Some(byte) => byte < first,
        None => alike == before.len(),
    }
}

/// The key behind the one that stands in `key`, in whose place it comes, and what follows it.
pub(crate) fn take_next_key<'a>(bytes: &'a [u8], key: &mut Vec<u8>) -> Result<&'a [u8], Fault>
    ensures ok { IfOk result (λ rest. take_next_key key.old.items bytes.now ≡ Some (key.new.items, rest.now)) }
    ensures err { IfErr result (λ fault. fault ≢ faults.OutOfMemory → (fault ≡ faults.Damaged None)
        × (take_next_key key.old.items bytes.now ≡ None)) }
{
    let (alike, bytes) = take_vint(bytes)?;
    let (rest, bytes) = take_bytes(bytes)?;
    if !is_next(key, alike as usize, rest) {
        return Err(Fault::Damaged(None));
    }
    key.truncate(alike as usize);
    key.extend_from_slice(rest)?;
    Ok(bytes)
}
