//! Lists of numbers in bytes of seven bits, and of ascending documents by their deltas.

ghost use Rattle.std.specs.Prelude.{drop, length, nat_lt, replicate, take, ◌++◌, ◌-◌, ◌<◌, ◌≡◌, ◌≤◌, ◌^◌, Bool, IfErr, IfOk, IsSome, IsTrue, List, None, OnErr, OnOk, Some, ℕ};
ghost use Rattle.std.specs.List.{list_all};
ghost use Rattle.definitions.specs.Blocks.{block_len};
ghost use Rattle.definitions.specs.declared.fault.Fault.TheVariants as faults;
ghost use Rattle.layouts.specs.Deltas.{IsAscendingFrom, deltas, documents, next_of};
ghost use Rattle.layouts.specs.VintBlocks.{documents_bytes, is_u32, numbers_bytes, take_all_numbers, take_documents, take_number, take_numbers};

use crate::block_decoder::BlockDecoder;
use crate::block_encoder::BlockEncoder;
use crate::block_size::COMPRESSION_BLOCK_SIZE;
use crate::delta_offset::least_after;
use common::{put_vint, take_vint};
use definitions::Fault;
use std::alloc::AllocError;

/// An encoder of lists of numbers in bytes of seven bits.
pub trait VIntEncoder {
    /// Appends ascending documents by their deltas. `offset` is the document before the first, or 0 where there is
    /// none.
    fn compress_vint_sorted(
        &self,
        out: &mut Vec<u8>,
        input: &[u32],
        offset: u32,
    ) -> Result<(), AllocError>
        requires { IsAscendingFrom (next_of offset) input.now }
        ensures { OnOk result (out.new.items ≡ out.old.items ++ documents_bytes offset input.now) };

    /// Appends numbers as they are.
    fn compress_vint_unsorted(&self, out: &mut Vec<u8>, input: &[u32]) -> Result<(), AllocError>
        ensures { OnOk result (out.new.items ≡ out.old.items ++ numbers_bytes input.now) };
}

/// A decoder of lists of at most 128 numbers in bytes of seven bits. The decoded numbers come first in the output,
/// then the padding, where one is given. A call returns how many bytes it read.
///
/// The plain calls are for bytes that are known to be such a list. The `try_` calls refuse other bytes as `Damaged`,
/// and then hold no number.
pub trait VIntDecoder {
    // All numbers of the output.
    ghost outputs: { Self → List ℕ };

    // How many of them were decoded last.
    ghost filled: { Self → ℕ };

    /// Decodes `num_els` documents after `offset`, which is 0 where there is none before.
    fn uncompress_vint_sorted(
        &mut self,
        bytes: &[u8],
        offset: u32,
        num_els: usize,
        padding: u32,
    ) -> usize
        requires room { num_els ≤ block_len }
        requires layout { IsSome (take_documents offset num_els bytes.now) }
        ensures documents { take_documents offset num_els bytes.now
            ≡ Some (take num_els (outputs self.new), drop result bytes.now) }
        ensures padded { drop num_els (outputs self.new) ≡ replicate (block_len - num_els) padding }
        ensures filled { filled self.new ≡ num_els }
        ensures within { result ≤ length bytes.now };

    /// Decodes `num_els` numbers as they are.
    fn uncompress_vint_unsorted(&mut self, bytes: &[u8], num_els: usize, padding: u32) -> usize
        requires room { num_els ≤ block_len }
        requires layout { IsSome (take_numbers num_els bytes.now) }
        ensures numbers { take_numbers num_els bytes.now
            ≡ Some (take num_els (outputs self.new), drop result bytes.now) }
        ensures padded { drop num_els (outputs self.new) ≡ replicate (block_len - num_els) padding }
        ensures filled { filled self.new ≡ num_els }
        ensures within { result ≤ length bytes.now };

    /// Decodes all numbers up to the end of `bytes`.
    fn uncompress_vint_unsorted_until_end(&mut self, bytes: &[u8])
        requires layout { IsSome (take_all_numbers block_len bytes.now) }
        ensures numbers { take_all_numbers block_len bytes.now ≡ Some (take (filled self.new) (outputs self.new)) }
        ensures room { filled self.new ≤ block_len };

    /// Like `uncompress_vint_sorted`, but for bytes that may be damaged.
    fn try_uncompress_vint_sorted(
        &mut self,
        bytes: &[u8],
        offset: u32,
        num_els: usize,
        padding: u32,
    ) -> Result<usize, Fault>
        requires room { num_els ≤ block_len }
        ensures ok { IfOk result (λ consumed. (consumed ≤ length bytes.now)
            × (take_documents offset num_els bytes.now
            ≡ Some (take num_els (outputs self.new), drop consumed bytes.now))) }
        ensures padded { OnOk result (drop num_els (outputs self.new) ≡ replicate (block_len - num_els) padding) }
        ensures filled { OnOk result (filled self.new ≡ num_els) }
        ensures err { IfErr result (λ fault. (fault ≡ faults.Damaged None)
            × (take_documents offset num_els bytes.now ≡ None)) }
        ensures none { OnErr result (filled self.new ≡ 0) };

    /// Like `uncompress_vint_unsorted`, but for bytes that may be damaged.
    fn try_uncompress_vint_unsorted(
        &mut self,
        bytes: &[u8],
        num_els: usize,
        padding: u32,
    ) -> Result<usize, Fault>
        requires room { num_els ≤ block_len }
        ensures ok { IfOk result (λ consumed. (consumed ≤ length bytes.now)
            × (take_numbers num_els bytes.now ≡ Some (take num_els (outputs self.new), drop consumed bytes.now))) }
        ensures padded { OnOk result (drop num_els (outputs self.new) ≡ replicate (block_len - num_els) padding) }
        ensures filled { OnOk result (filled self.new ≡ num_els) }
        ensures err { IfErr result (λ fault. (fault ≡ faults.Damaged None) × (take_numbers num_els bytes.now ≡ None)) }
        ensures none { OnErr result (filled self.new ≡ 0) };

    /// Like `uncompress_vint_unsorted_until_end`, but for bytes that may be damaged.
    fn try_uncompress_vint_unsorted_until_end(&mut self, bytes: &[u8]) -> Result<(), Fault>
        ensures ok { OnOk result (take_all_numbers block_len bytes.now
            ≡ Some (take (filled self.new) (outputs self.new))) }
        ensures room { filled self.new ≤ block_len }
        ensures err { IfErr result (λ fault. (fault ≡ faults.Damaged None)
            × (take_all_numbers block_len bytes.now ≡ None)) }
        ensures none { OnErr result (filled self.new ≡ 0) };
}

impl VIntEncoder for BlockEncoder {
    fn compress_vint_sorted(
        &self,
        out: &mut Vec<u8>,
        input: &[u32],
        offset: u32,
    ) -> Result<(), AllocError> {
        let mut next = least_after(offset);
        for document in input {
            put_vint(out, u64::from(*document) - next)?;
            next = u64::from(*document) + 1;
        }
        Ok(())
    }

    fn compress_vint_unsorted(&self, out: &mut Vec<u8>, input: &[u32]) -> Result<(), AllocError> {
        for number in input {
            put_vint(out, u64::from(*number))?;
        }
        Ok(())
    }
}

impl VIntDecoder for BlockDecoder {
    ghost outputs = { λ d. d.output };

    ghost filled = { λ d. d.output_len };

    fn uncompress_vint_sorted(
        &mut self,
        bytes: &[u8],
        offset: u32,
        num_els: usize,
        padding: u32,
    ) -> usize {
        let consumed = self.uncompress_vint_unsorted(bytes, num_els, padding);
        sum_deltas(&mut self.output, num_els, least_after(offset));
        consumed
    }

    fn uncompress_vint_unsorted(&mut self, bytes: &[u8], num_els: usize, padding: u32) -> usize {
        let consumed = read_numbers(bytes, num_els, &mut self.output);
        pad(&mut self.output, num_els, padding);
        self.output_len = num_els;
        consumed
    }

    fn uncompress_vint_unsorted_until_end(&mut self, bytes: &[u8]) {
        self.output_len = read_all_numbers(bytes, &mut self.output);
    }

    fn try_uncompress_vint_sorted(
        &mut self,
        bytes: &[u8],
        offset: u32,
        num_els: usize,
        padding: u32,
    ) -> Result<usize, Fault> {
        let consumed = self.try_uncompress_vint_unsorted(bytes, num_els, padding)?;
        if !add_deltas(&mut self.output, num_els, least_after(offset)) {
            self.output_len = 0;
            return Err(Fault::Damaged(None));
        }
        Ok(consumed)
    }

    fn try_uncompress_vint_unsorted(
        &mut self,
        bytes: &[u8],
        num_els: usize,
        padding: u32,
    ) -> Result<usize, Fault> {
        self.output_len = 0;
        let consumed = try_read_numbers(bytes, num_els, &mut self.output)?;
        pad(&mut self.output, num_els, padding);
        self.output_len = num_els;
        Ok(consumed)
    }

    fn try_uncompress_vint_unsorted_until_end(&mut self, bytes: &[u8]) -> Result<(), Fault> {
        self.output_len = 0;
        self.output_len = try_read_all_numbers(bytes, &mut self.output)?;
        Ok(())
    }
}

/// Fills the output after its first `count` numbers with `padding`.
fn pad(output: &mut [u32; COMPRESSION_BLOCK_SIZE], count: usize, padding: u32)
    requires { count ≤ block_len }
    ensures first { take count output.new ≡ take count output.old }
    ensures padded { drop count output.new ≡ replicate (block_len - count) padding }
{
    output[count..].fill(padding);
}

/// Turns the first `count` deltas into documents from `next` on; false where one isn't below 2^32.
fn add_deltas(output: &mut [u32; COMPRESSION_BLOCK_SIZE], count: usize, next: u64) -> bool
    requires room { count ≤ block_len }
    requires few { next ≤ 2 ^ 32 }
    ensures value { result ≡ list_all is_u32 (documents next (take count output.old)) }
    ensures documents { IsTrue result → take count output.new ≡ documents next (take count output.old) }
    ensures rest { drop count output.new ≡ drop count output.old }
{
    let mut least = next;
    for index in 0..count {
        let document = least + u64::from(output[index]);
        if document > u64::from(u32::MAX) {
            return false;
        }
        output[index] = document as u32;
        least = document + 1;
    }
    true
}

/// Turns the first `count` deltas into documents from `next` on, which are known to be below 2^32.
fn sum_deltas(output: &mut [u32; COMPRESSION_BLOCK_SIZE], count: usize, next: u64)
    requires room { count ≤ block_len }
    requires few { next ≤ 2 ^ 32 }
    requires small { IsTrue (list_all is_u32 (documents next (take count output.old))) }
    ensures documents { take count output.new ≡ documents next (take count output.old) }
    ensures rest { drop count output.new ≡ drop count output.old }
{
    let mut least = next;
    for index in 0..count {
        let document = least + u64::from(output[index]);
        output[index] = document as u32;
        least = document + 1;
    }
}

/// Decodes the first number; returns it, and the bytes after it.
fn first_number(bytes: &[u8]) -> (u32, &[u8])
    requires { IsSome (take_number bytes.now) }
    ensures { take_number bytes.now ≡ Some (result.0, result.1.now) }
{
    let mut value: u32 = 0;
    let mut shift: u32 = 0;
    let mut rest = bytes;
    while rest[0] < 128 {
        value += u32::from(rest[0]) << shift;
        shift += 7;
        rest = &rest[1..];
    }
    (value + (u32::from(rest[0] - 128) << shift), &rest[1..])
}

/// Decodes the first number, which must be below 2^32; returns it, and the bytes after it.
pub fn take_u32_vint(bytes: &[u8]) -> Result<(u32, &[u8]), Fault>
    ensures ok { IfOk result (λ p. take_number bytes.now ≡ Some (p.0, p.1.now)) }
    ensures err { IfErr result (λ fault. (fault ≡ faults.Damaged None) × (take_number bytes.now ≡ None)) }
{
    let (number, rest) = take_vint(bytes)?;
    if number > u64::from(u32::MAX) {
        return Err(Fault::Damaged(None));
    }
    Ok((number as u32, rest))
}

/// Decodes `count` numbers; returns how many bytes they take.
fn read_numbers(bytes: &[u8], count: usize, output: &mut [u32; COMPRESSION_BLOCK_SIZE]) -> usize
    requires room { count ≤ block_len }
    requires layout { IsSome (take_numbers count bytes.now) }
    ensures numbers { take_numbers count bytes.now ≡ Some (take count output.new, drop result bytes.now) }
    ensures within { result ≤ length bytes.now }
{
    let mut rest = bytes;
    for index in 0..count {
        let (number, after) = first_number(rest);
        output[index] = number;
        rest = after;
    }
    bytes.len() - rest.len()
}

/// Decodes all numbers up to the end; returns how many there are.
fn read_all_numbers(bytes: &[u8], output: &mut [u32; COMPRESSION_BLOCK_SIZE]) -> usize
    requires { IsSome (take_all_numbers block_len bytes.now) }
    ensures numbers { take_all_numbers block_len bytes.now ≡ Some (take result output.new) }
    ensures room { result ≤ block_len }
{
    let mut rest = bytes;
    let mut count: usize = 0;
    while !rest.is_empty() {
        let (number, after) = first_number(rest);
        output[count] = number;
        count += 1;
        rest = after;
    }
    count
}

/// Like `read_numbers`, but for bytes that may be damaged.
fn try_read_numbers(
    bytes: &[u8],
    count: usize,
    output: &mut [u32; COMPRESSION_BLOCK_SIZE],
) -> Result<usize, Fault>
    requires room { count ≤ block_len }
    ensures ok { IfOk result (λ consumed. (consumed ≤ length bytes.now)
        × (take_numbers count bytes.now ≡ Some (take count output.new, drop consumed bytes.now))) }
    ensures err { IfErr result (λ fault. (fault ≡ faults.Damaged None) × (take_numbers count bytes.now ≡ None)) }
{
    let mut rest = bytes;
    for index in 0..count {
        let (number, after) = take_u32_vint(rest)?;
        output[index] = number;
        rest = after;
    }
    Ok(bytes.len() - rest.len())
}

/// Like `read_all_numbers`, but for bytes that may be damaged or have more than 128 numbers.
fn try_read_all_numbers(
    bytes: &[u8],
    output: &mut [u32; COMPRESSION_BLOCK_SIZE],
) -> Result<usize, Fault>
    ensures ok { IfOk result (λ count. (count ≤ block_len)
        × (take_all_numbers block_len bytes.now ≡ Some (take count output.new))) }
    ensures err { IfErr result (λ fault. (fault ≡ faults.Damaged None)
        × (take_all_numbers block_len bytes.now ≡ None)) }
{
    let mut rest = bytes;
    let mut count: usize = 0;
    while !rest.is_empty() {
        if count == COMPRESSION_BLOCK_SIZE {
            return Err(Fault::Damaged(None));
        }
        let (number, after) = take_u32_vint(rest)?;
        output[count] = number;
        count += 1;
        rest = after;
    }
    Ok(count)
}
