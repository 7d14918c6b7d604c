//! The recorder of a term with positions: its documents and positions, as bytes.
//!
//! Of each occurrence two numbers of seven bits a byte are kept: how far its document is after that of the occurrence
//! before it, and the position. Most take a byte or two each.

ghost use Rattle.std.specs.Prelude.{[], ◌++◌, ◌+◌, ◌<◌, ◌^◌, ◌≡◌, ◌≤◌, ◌∷◌, IfErr, IfOk, IsSomeAnd, List, OnErr, OnOk, Some, length, vec_capacity, ℕ};
ghost use Rattle.definitions.specs.NumberCodes.{take_vint, vint_bytes};
ghost use Rattle.definitions.specs.declared.fault.Fault.TheVariants as faults;
ghost use Rattle.postings_writer.specs.Occurrences.{by_document, last_count};
ghost use Rattle.postings_writer.specs.Recorders.{IsCountRefusal};

use common::{put_vint, take_vint};
use definitions::Fault;
use std::alloc::{AllocError, Global};
use std::marker::Model;

/// The least number of four bytes.
const FOUR_BYTES: u32 = 2097152;

/// Appends a number of at most three bytes, for which there is room.
#[inline]
fn put_short(bytes: &mut Vec<u8>, number: u32)
    requires short { number < 2097152 }
    requires room { length bytes.old.items + 3 ≤ vec_capacity bytes.old }
    ensures items { bytes.new.items ≡ bytes.old.items ++ vint_bytes number }
    ensures len { length bytes.new.items ≤ length bytes.old.items + 3 }
    ensures capacity { vec_capacity bytes.new ≡ vec_capacity bytes.old }
{
    if number < 128 {
        bytes.push_reserved(128 + number as u8);
        return;
    }
    bytes.push_reserved((number % 128) as u8);
    let high = number / 128;
    if high < 128 {
        bytes.push_reserved(128 + high as u8);
        return;
    }
    bytes.push_reserved((high % 128) as u8);
    bytes.push_reserved(128 + (high / 128) as u8);
}

/// Appends two numbers; nothing if out of memory.
fn put_two(bytes: &mut Vec<u8>, first: u32, second: u32) -> Result<(), AllocError>
    ensures ok { OnOk result (bytes.new.items ≡ bytes.old.items ++ vint_bytes first ++ vint_bytes second) }
    ensures err { OnErr result (bytes.new.items ≡ bytes.old.items) }
{
    if first >= FOUR_BYTES || second >= FOUR_BYTES {
        return put_long(bytes, first, second);
    }
    bytes.reserve(6)?;
    put_short(bytes, first);
    put_short(bytes, second);
    Ok(())
}

/// Like `put_two`, but for numbers of any length.
fn put_long(bytes: &mut Vec<u8>, first: u32, second: u32) -> Result<(), AllocError>
    ensures ok { OnOk result (bytes.new.items ≡ bytes.old.items ++ vint_bytes first ++ vint_bytes second) }
    ensures err { OnErr result (bytes.new.items ≡ bytes.old.items) }
{
    let before = bytes.len();
    if put_vint(bytes, u64::from(first)).is_err() || put_vint(bytes, u64::from(second)).is_err() {
        bytes.truncate(before);
        return Err(AllocError);
    }
    Ok(())
}

/// Decodes the first number, mostly of one byte or two; returns it and the bytes after it.
#[inline]
fn take_number(bytes: &[u8]) -> (u32, &[u8])
    requires { IsSomeAnd (take_vint bytes.now) (λ p. p.0 < 2 ^ 32) }
    ensures { take_vint bytes.now ≡ Some (result.0, result.1.now) }
{
    if let Some((byte, rest)) = bytes.split_first() {
        if *byte >= 128 {
            return (u32::from(*byte) - 128, rest);
        }
        if let Some((high, after)) = rest.split_first() {
            if *high >= 128 {
                return (u32::from(*byte) + 128 * (u32::from(*high) - 128), after);
            }
        }
    }
    match take_vint(bytes) {
        Ok((n, rest)) => (n as u32, rest),
        Err(_) => unreachable!(),
    }
}

/// Returns a count with one more, if it is below 4294967296.
#[inline]
fn one_more(count: u32) -> Result<u32, Fault>
    ensures ok { IfOk result (λ more. (more ≡ count + 1) × (more < 2 ^ 32)) }
    ensures err { IfErr result (λ fault. (fault ≡ faults.Limit) × (2 ^ 32 ≤ count + 1)) }
{
    count.checked_add(1).ok_or(Fault::Limit)
}

/// The documents of a term, and its positions in each.
/// Those of a document are sorted when the term is written, so they may be recorded in any order.
#[derive(Drop)]
pub struct TfAndPositionRecorder {
    bytes: Vec<u8>,
    // The number of occurrences.
    len: usize,
    // The last document, or 0.
    doc: u32,
    // How often the term occurs in it.
    count: u32,
}

impl Model for TfAndPositionRecorder {
    ghost use Rattle.std.specs.Prelude.{◌≡◌, List, ℕ};
    ghost use Rattle.postings_writer.specs.Occurrences.{by_document, last_count};
    ghost use Rattle.postings_writer.specs.OccurrenceBytes.{AreBytesOf, occurrences_in};

    ghost Value = { List (ℕ × ℕ) };

    ghost view = { λ r. occurrences_in r.len 0 r.bytes.items };

    ghost invariant = { λ r. AreBytesOf (occurrences_in r.len 0 r.bytes.items) r.bytes.items r.len r.doc
        × (r.count ≡ last_count (by_document (occurrences_in r.len 0 r.bytes.items))) };
}

impl TfAndPositionRecorder {
    /// Returns a recorder without documents.
    pub fn new(alloc: Global) -> TfAndPositionRecorder
        ensures { result ≡ [] }
    {
        TfAndPositionRecorder {
            bytes: Vec::new(alloc),
            len: 0,
            doc: 0,
            count: 0,
        }
    }

    /// Returns how often the term occurs in the last document, once it occurs in `doc` once more.
    #[inline]
    fn count_with(&self, doc: u32) -> Result<u32, Fault>
        ensures ok { (position : ℕ) → IfOk result (λ count. count
            ≡ last_count (by_document (self.now ++ (doc, position) ∷ []))) }
        ensures within { IfOk result (λ count. count < 2 ^ 32) }
        ensures err { (position : ℕ) → IfErr result (λ fault. IsCountRefusal fault
            (self.now ++ (doc, position) ∷ [])) }
    {
        if doc != self.doc {
            return Ok(1);
        }
        let count = one_more(self.count)?;
        Ok(count)
    }

    /// Records an occurrence of the term in `doc`, which isn't before the last one, at `position`. A count past
    /// 4294967295 is refused.
    pub fn record(&mut self, doc: u32, position: u32) -> Result<(), Fault>
        ensures ok { OnOk result (self.new ≡ self.old ++ (doc, position) ∷ []) }
        ensures within { OnOk result (last_count (by_document (self.old ++ (doc, position) ∷ [])) < 2 ^ 32) }
        ensures err { IfErr result (λ fault. IsCountRefusal fault (self.old ++ (doc, position) ∷ [])) }
    {
        let count = self.count_with(doc)?;
        put_two(&mut self.bytes, doc.wrapping_sub(self.doc), position)?;
        self.len += 1;
        self.doc = doc;
        self.count = count;
        Ok(())
    }

    /// Returns the number of occurrences.
    pub fn len(&self) -> usize
        ensures { result ≡ length self.now }
    {
        self.len
    }

    /// Replaces what `output` holds by documents and positions, in the order in which they were recorded.
    pub fn copy_places(&self, output: &mut Vec<(u32, u32)>) -> Result<(), AllocError>
        ensures { OnOk result (output.new.items ≡ self.now) }
    {
        output.clear();
        output.reserve(self.len)?;
        let mut doc: u32 = 0;
        let mut rest = self.bytes.as_slice();
        for _ in 0..self.len {
            let (gap, after_gap) = take_number(rest);
            let (position, after) = take_number(after_gap);
            doc = doc.wrapping_add(gap);
            output.push((doc, position))?;
            rest = after;
        }
        Ok(())
    }
}
