//! The check of a term's positions.

ghost use Rattle.std.specs.Prelude.{IfErr, IfNone, IfOk, IfSome, IsTrue, List, None, OnOk, ℕ, ◌+◌, ◌<◌, ◌^◌, ◌≡◌, ◌≤◌, ◌↔◌, drop, length, sum, take, true};
ghost use Rattle.segment_postings.specs.Placed.{HasFew, HasNumbers, LastPositionsFit};
ghost use Rattle.definitions.specs.Blocks.{block_len};
ghost use Rattle.definitions.specs.declared.fault.Fault.TheVariants as faults;
ghost use Rattle.segment_postings.specs.Cursors.{counts_left, docs_left};
ghost use Rattle.segment_postings.specs.Reading.{HasPostings};

use crate::BlockSegmentPostings;
use crate::rest_check::recorded_rest;
use codes::{COMPRESSION_BLOCK_SIZE, PositionReader, Recorded};
use definitions::Fault;

/// Checks the positions of a term whose postings are known; `total` is the sum of its counts.
pub(crate) fn check_positions(
    postings: &[u8],
    positions: &[u8],
    doc_freq: u32,
    total: u64,
) -> Result<(), Fault>
    requires { ∥ ((docs counts : List ℕ) × HasPostings true true doc_freq postings.now docs counts
        × (total ≡ sum counts)) ∥₁ }
    ensures ok { OnOk result ((docs counts : List ℕ) → HasPostings true true doc_freq postings.now docs counts
        → HasNumbers counts positions.now) }
    ensures err { IfErr result (λ fault. (fault ≡ faults.Damaged None)
        × ((docs counts : List ℕ) → HasPostings true true doc_freq postings.now docs counts
        → HasNumbers counts positions.now → ⊥)) }
{
    if are_few(positions, total) {
        return Ok(());
    }
    check_many(postings, positions, doc_freq, total)?;
    Ok(())
}

/// Whether `positions` are `total` numbers, fewer than 128, that show by one sum that each document's positions are
/// below 2^31. Most terms have so few; of others nothing is said.
fn are_few(positions: &[u8], total: u64) -> bool
    ensures { IsTrue result → HasFew total positions.now }
{
    let Some((first, rest)) = positions.split_first() else {
        return false;
    };
    if *first != 128 || total >= COMPRESSION_BLOCK_SIZE as u64 {
        return false;
    }
    let Ok(sum) = recorded_rest(rest, total as usize) else {
        return false;
    };
    sum < 1 << 31
}

/// Like `check_positions`, of any number of positions. It has room for blocks, which costs time at each call.
fn check_many(postings: &[u8], positions: &[u8], doc_freq: u32, total: u64) -> Result<(), Fault>
    requires { ∥ ((docs counts : List ℕ) × HasPostings true true doc_freq postings.now docs counts
        × (total ≡ sum counts)) ∥₁ }
    ensures ok { OnOk result ((docs counts : List ℕ) → HasPostings true true doc_freq postings.now docs counts
        → HasNumbers counts positions.now) }
    ensures err { IfErr result (λ fault. (fault ≡ faults.Damaged None)
        × ((docs counts : List ℕ) → HasPostings true true doc_freq postings.now docs counts
        → HasNumbers counts positions.now → ⊥)) }
{
    let mut reader = PositionReader::open(positions)?;
    if reader.num_positions() != total as u128 {
        return Err(Fault::Damaged(None));
    }
    let mut room = [0; COMPRESSION_BLOCK_SIZE];
    if is_bounded(&mut reader, 0, total, &mut room) {
        return Ok(());
    }
    check_each(postings, doc_freq, &mut reader)?;
    Ok(())
}

/// Checks the positions of each document.
fn check_each(postings: &[u8], doc_freq: u32, reader: &mut PositionReader) -> Result<(), Fault>
    requires known { ∥ ((docs counts : List ℕ) × HasPostings true true doc_freq postings.now docs counts
        × (length reader.old ≡ sum counts)) ∥₁ }
    requires few { length reader.old < 2 ^ 64 }
    ensures ok { OnOk result ((docs counts : List ℕ) → HasPostings true true doc_freq postings.now docs counts
        → LastPositionsFit counts reader.old) }
    ensures err { IfErr result (λ fault. (fault ≡ faults.Damaged None)
        × ((docs counts : List ℕ) → HasPostings true true doc_freq postings.now docs counts
        → LastPositionsFit counts reader.old → ⊥)) }
{
    let recorded = Recorded {
        counts: true,
        positions: true,
    };
    let mut blocks = BlockSegmentPostings::new(postings, doc_freq, recorded, true, false);
    if !are_bounded(&mut blocks, reader) {
        return Err(Fault::Damaged(None));
    }
    Ok(())
}

/// Whether each document's positions are below 2^31, if there are as many as the counts say.
fn are_bounded(blocks: &mut BlockSegmentPostings, reader: &mut PositionReader) -> bool
    requires same { length (counts_left blocks.old) ≡ length (docs_left blocks.old) }
    requires many { sum (counts_left blocks.old) ≡ length reader.old }
    requires few { sum (counts_left blocks.old) < 2 ^ 64 }
    ensures { IsTrue result ↔ LastPositionsFit (counts_left blocks.old) reader.old }
{
    let mut index = 0;
    let mut room = [0; COMPRESSION_BLOCK_SIZE];
    while blocks.block_len() > 0 {
        match block_end(blocks.freqs(), reader, index, &mut room) {
            Some(end) => index = end,
            None => return false,
        }
        blocks.advance();
    }
    true
}

/// Returns the end of a block's positions from `index` on, if all are below 2^31; mostly one sum shows it.
fn block_end(
    counts: &[u32],
    reader: &mut PositionReader,
    index: u64,
    room: &mut [u32; COMPRESSION_BLOCK_SIZE],
) -> Option<u64>
    requires block { length counts.now ≤ block_len }
    requires within { index + sum counts.now ≤ length reader.old }
    requires few { index + sum counts.now < 2 ^ 64 }
    ensures some { IfSome result (λ end. LastPositionsFit counts.now (drop index reader.old)
        × (end ≡ index + sum counts.now)) }
    ensures none { IfNone result (LastPositionsFit counts.now (drop index reader.old) → ⊥) }
    ensures same { reader.new ≡ reader.old }
{
    let count = sum_of(counts);
    if is_bounded(reader, index, count, room) {
        return Some(index + count);
    }
    bounded_end(counts, reader, index, room)
}

/// Like `block_end`, but by a sum for each document.
fn bounded_end(
    counts: &[u32],
    reader: &mut PositionReader,
    index: u64,
    room: &mut [u32; COMPRESSION_BLOCK_SIZE],
) -> Option<u64>
    requires within { index + sum counts.now ≤ length reader.old }
    requires few { index + sum counts.now < 2 ^ 64 }
    ensures some { IfSome result (λ end. LastPositionsFit counts.now (drop index reader.old)
        × (end ≡ index + sum counts.now)) }
    ensures none { IfNone result (LastPositionsFit counts.now (drop index reader.old) → ⊥) }
    ensures same { reader.new ≡ reader.old }
{
    let mut end = index;
    for count in counts {
        if !is_bounded(reader, end, u64::from(*count), room) {
            return None;
        }
        end += u64::from(*count);
    }
    Some(end)
}

/// Whether the sum of `count` numbers from `index` on is below 2^31.
fn is_bounded(
    reader: &mut PositionReader,
    index: u64,
    count: u64,
    room: &mut [u32; COMPRESSION_BLOCK_SIZE],
) -> bool
    requires within { index + count ≤ length reader.old }
    requires few { index + count < 2 ^ 64 }
    ensures value { IsTrue result ↔ (sum (take count (drop index reader.old)) < 2 ^ 31) }
    ensures same { reader.new ≡ reader.old }
{
    let mut done: u64 = 0;
    let mut total: u64 = 0;
    while done < count {
        let len = (count - done).min(COMPRESSION_BLOCK_SIZE as u64);
        total += sum_at(reader, index + done, len as usize, room);
        if total >= 1 << 31 {
            return false;
        }
        done += len;
    }
    true
}

/// Returns the sum of `len` numbers from `index` on.
fn sum_at(
    reader: &mut PositionReader,
    index: u64,
    len: usize,
    room: &mut [u32; COMPRESSION_BLOCK_SIZE],
) -> u64
    requires few { len ≤ block_len }
    requires within { index + len ≤ length reader.old }
    ensures value { result ≡ sum (take len (drop index reader.old)) }
    ensures small { result ≤ 549755813760 }
    ensures same { reader.new ≡ reader.old }
{
    reader.read(index, &mut room[..len]);
    sum_of(&room[..len])
}

/// Returns the sum of at most 128 numbers.
fn sum_of(numbers: &[u32]) -> u64
    requires { length numbers.now ≤ block_len }
    ensures value { result ≡ sum numbers.now }
    ensures small { result ≤ 549755813760 }
{
    let mut total = 0;
    for number in numbers {
        total += u64::from(*number);
    }
    total
}
