//! Terms of a field, read and checked.

ghost use Rattle.std.specs.Prelude.{IfErr, IfOk, IfSome, None, Some, ◌≡◌, ◌≢◌};
ghost use Rattle.definitions.specs.declared.fault.Fault.TheVariants as faults;
ghost use Rattle.layouts.specs.TermSections.{block_size};
ghost use Rattle.front_coding.specs.Lengths.{lengths_of};
ghost use Rattle.front_coding.specs.TakenKeys.{may_follow, take_first_key, take_key, take_lengths, take_term};

use crate::blocks::begins_block;
use crate::keys::take_next_key;
use crate::short_codes::{take_bytes, take_vint};
use crate::term_lengths::EntryLengths;
use definitions::Fault;

/// Whether the term of a number may have this key, behind one with the key before.
fn may_follow(number: u64, before: &[u8], key: &[u8]) -> bool
    ensures { result ≡ may_follow number before.now key.now }
{
    number == 0 || before < key
}

/// The key that stands first in a block; it comes into `key`, where the one before stands.
fn take_first_key<'a>(bytes: &'a [u8], number: u64, key: &mut Vec<u8>) -> Result<&'a [u8], Fault>
    ensures ok { IfOk result (λ rest. take_first_key number key.old.items bytes.now ≡ Some (key.new.items, rest.now)) }
    ensures err { IfErr result (λ fault. fault ≢ faults.OutOfMemory → (fault ≡ faults.Damaged None)
        × (take_first_key number key.old.items bytes.now ≡ None)) }
{
    let (first, rest) = take_bytes(bytes)?;
    if !may_follow(number, key, first) {
        return Err(Fault::Damaged(None));
    }
    key.clear();
    key.extend_from_slice(first)?;
    Ok(rest)
}

/// The key of the term of a number.
fn take_key<'a>(
    bytes: &'a [u8],
    front_coded: bool,
    number: u64,
    key: &mut Vec<u8>,
) -> Result<&'a [u8], Fault>
    ensures ok { IfOk result (λ rest. take_key (block_size front_coded) number key.old.items bytes.now
        ≡ Some (key.new.items, rest.now)) }
    ensures err { IfErr result (λ fault. fault ≢ faults.OutOfMemory → (fault ≡ faults.Damaged None)
        × (take_key (block_size front_coded) number key.old.items bytes.now ≡ None)) }
{
    if begins_block(front_coded, number) {
        return take_first_key(bytes, number, key);
    }
    take_next_key(bytes, key)
}

/// The lengths of a term, if each takes one byte.
#[inline(always)]
fn short_lengths(bytes: &[u8]) -> Option<(EntryLengths, &[u8])>
    ensures { IfSome result (λ p. take_lengths bytes.now ≡ Some (lengths_of p.0, p.1.now)) }
{
    let (first, rest) = bytes.split_first_chunk::<3>()?;
    let [doc_freq, postings_len, positions_len] = *first;
    if doc_freq < 128 || postings_len < 128 || positions_len < 128 {
        return None;
    }
    let lengths = EntryLengths {
        doc_freq: u64::from(doc_freq) - 128,
        postings_len: u64::from(postings_len) - 128,
        positions_len: u64::from(positions_len) - 128,
    };
    Some((lengths, rest))
}

/// The lengths of a term.
pub(crate) fn take_lengths(bytes: &[u8]) -> Result<(EntryLengths, &[u8]), Fault>
    ensures ok { IfOk result (λ p. take_lengths bytes.now ≡ Some (lengths_of p.0, p.1.now)) }
    ensures err { IfErr result (λ fault. (fault ≡ faults.Damaged None) × (take_lengths bytes.now ≡ None)) }
{
    if let Some(found) = short_lengths(bytes) {
        return Ok(found);
    }
    take_long_lengths(bytes)
}

/// The lengths of a term, which take any bytes.
fn take_long_lengths(bytes: &[u8]) -> Result<(EntryLengths, &[u8]), Fault>
    ensures ok { IfOk result (λ p. take_lengths bytes.now ≡ Some (lengths_of p.0, p.1.now)) }
    ensures err { IfErr result (λ fault. (fault ≡ faults.Damaged None) × (take_lengths bytes.now ≡ None)) }
{
    let (doc_freq, rest) = take_vint(bytes)?;
    let (postings_len, rest) = take_vint(rest)?;
    let (positions_len, rest) = take_vint(rest)?;
    let lengths = EntryLengths {
        doc_freq,
        postings_len,
        positions_len,
    };
    Ok((lengths, rest))
}

/// The term of a number: its key comes into `key`, where that of the term before stands.
pub fn take_term<'a>(
    bytes: &'a [u8],
    front_coded: bool,
    number: u64,
    key: &mut Vec<u8>,
) -> Result<(EntryLengths, &'a [u8]), Fault>
    ensures ok { IfOk result (λ p. take_term (block_size front_coded) number key.old.items bytes.now
        ≡ Some ((key.new.items, lengths_of p.0), p.1.now)) }
    ensures err { IfErr result (λ fault. fault ≢ faults.OutOfMemory → (fault ≡ faults.Damaged None)
        × (take_term (block_size front_coded) number key.old.items bytes.now ≡ None)) }
{
    let rest = take_key(bytes, front_coded, number, key)?;
    take_lengths(rest)
}
