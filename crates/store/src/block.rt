//! Blocks: the documents' bytes one after the other, where each starts, and how many they are.

ghost use Rattle.std.specs.Prelude.{[], ◌+◌, ◌<◌, ◌≡◌, ◌≤◌, ◌↔◌, IfErr, IfOk, IsTrue, List, length, slice_index_or, slice_range, ℕ};
ghost use Rattle.layouts.specs.Stores.{IsBlock};
ghost use Rattle.store.specs.Reading.{IsBlockOf, are_starts, ascend, number_at, numbers};
ghost use Rattle.store.specs.Slots.{IsBadBlock, IsOpenBlock};
ghost use Rattle.store.specs.TakenGroups.{IsDamage};
ghost use Rattle.store.specs.Writing.{block_in};

use bytes::Bytes;
use definitions::Fault;
use layouts::Checkpoint;
use std::ops::Range;

/// Returns the number of 32 bits at the offset `at`.
pub(crate) fn u32_at(bytes: &[u8], at: usize) -> u32
    requires { at + 4 ≤ length bytes.now }
    ensures { result ≡ number_at bytes.now at }
{
    u32::from_le_bytes([bytes[at], bytes[at + 1], bytes[at + 2], bytes[at + 3]])
}

/// Whether the numbers are the starts of documents of `end` bytes in all.
fn are_starts(starts: &[u8], end: usize) -> bool
    ensures { result ≡ are_starts end (numbers starts.now) }
{
    match starts.split_first_chunk::<4>() {
        Some((first, rest)) => u32::from_le_bytes(*first) == 0 && ascend(rest, end),
        None => end == 0,
    }
}

/// Whether the numbers don't fall, and none is past `end`.
fn ascend(starts: &[u8], end: usize) -> bool
    ensures { result ≡ ascend end 0 (numbers starts.now) }
{
    let mut at = 0;
    let mut rest = starts;
    while let Some((first, after)) = rest.split_first_chunk::<4>() {
        let start = u32::from_le_bytes(*first) as usize;
        if start < at {
            return false;
        }
        at = start;
        rest = after;
    }
    at <= end
}

/// Whether the bytes are a block of `count` documents.
pub(crate) fn is_block(bytes: &[u8], count: u32) -> bool
    ensures { IsTrue result ↔ IsBlockOf count bytes.now }
{
    let starts_len = 4 * count as usize;
    if bytes.len() < starts_len + 4 {
        return false;
    }
    let (docs, rest) = bytes.split_at(bytes.len() - starts_len - 4);
    let (starts, last) = rest.split_at(starts_len);
    u32_at(last, 0) == count && are_starts(starts, docs.len())
}

/// Opens the block at the checkpoint `reach`, and checks it.
pub(crate) fn open_block(whole: &Bytes, reach: &Checkpoint) -> Result<Bytes, Fault>
    requires within { (reach.now.byte_range.start ≤ reach.now.byte_range.end)
        × (reach.now.byte_range.end ≤ length whole.now) }
    requires docs { reach.now.doc_range.start ≤ reach.now.doc_range.end }
    ensures ok { IfOk result (IsOpenBlock (block_in whole.now reach.now)) }
    ensures err { IfErr result (λ fault. IsDamage fault (IsBadBlock (block_in whole.now reach.now))) }
{
    let block = whole.slice(reach.byte_range.start..reach.byte_range.end)?;
    let count = reach.doc_range.end - reach.doc_range.start;
    if !is_block(block.as_slice(), count) {
        return Err(Fault::Damaged(None));
    }
    Ok(block)
}

/// Returns the range of the bytes of the document at index `at` of its block.
pub(crate) fn slot_range(block: &[u8], count: u32, at: u32) -> Range<usize>
    requires block { IsBlockOf count block.now }
    requires at { at < count }
    ensures within { (result.start ≤ result.end) × (result.end ≤ length block.now) }
    ensures slot { (docs : List (List ℕ)) → length docs ≡ count → IsBlock docs block.now
        → slice_range block.now result.start result.end ≡ slice_index_or docs at [] }
{
    let starts = block.len() - 4 - 4 * count as usize;
    let offset = starts + 4 * at as usize;
    let start = u32_at(block, offset) as usize;
    let end = if at + 1 < count {
        u32_at(block, offset + 4) as usize
    } else {
        starts
    };
    start..end
}
