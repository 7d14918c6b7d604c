//! Skip entries, decoded from their bytes.

ghost use Rattle.std.specs.Prelude.{◌%◌, ◌+◌, ◌/◌, ◌≡◌, ◌<◌, ◌≤◌, ◌^◌, IfErr, IfOk, IsSome, List, None, Some, length, nat_lt, ℕ};
ghost use Rattle.codes.specs.SkipBlocks.{Skips, are_skips, begun, blocks_before, ended, entry_of, info_of, last_doc, passed, take_byte, take_entry, take_where};
ghost use Rattle.definitions.specs.Blocks.{block_len};
ghost use Rattle.definitions.specs.NumberCodes.{take_u32};
ghost use Rattle.definitions.specs.Postings.{terminated};
ghost use Rattle.definitions.specs.declared.fault.Fault.TheVariants as faults;
ghost use Rattle.layouts.specs.SkipEntries.{AreSkips, SkipEntry, is_entry};

use crate::block_size::{COMPRESSION_BLOCK_SIZE, compressed_block_size};
use common::{TERMINATED, take_u32};
use definitions::Fault;
use std::marker::Model;

/// What a term's postings record beside the documents.
#[derive(Clone, Copy)]
pub struct Recorded {
    /// How often the term occurs in each document.
    pub counts: bool,
    /// At which positions it occurs.
    pub positions: bool,
}

/// What a block is made of.
#[derive(Debug, Clone, Copy, PartialEq, Eq)]
pub enum BlockInfo {
    /// A full block: the widths of documents and counts, the sum of the counts, and the bound.
    BitPacked {
        doc_num_bits: u8,
        tf_num_bits: u8,
        tf_sum: u32,
        block_wand_fieldnorm_id: u8,
        block_wand_term_freq: u8,
    },
    /// The rest: how many documents it has.
    VInt {
        num_docs: u32,
    },
}

/// A skip entry as it is encoded.
#[derive(Clone, Copy)]
struct Entry {
    last_doc: u32,
    doc_width: u8,
    count_width: u8,
    count_sum: u32,
    least_id: u8,
    greatest_count: u8,
}

/// The skip entries of a term's full blocks, borrowed from their bytes: the reader is at one of these blocks, and
/// after all of them at the rest.
#[derive(Drop)]
pub struct SkipReader<'a> {
    bytes: &'a [u8],
    recorded: Recorded,
    blocks: u32,
    rest: u32,
    byte_offset: usize,
    position_offset: u64,
}

impl<'a> Model for SkipReader<'a> {
    ghost use Rattle.codes.specs.SkipBlocks.{HasEntries, Skips, entries_of, take_entries};

    ghost Value = { Skips };

    ghost view = { λ r. record { counts = r.recorded.counts; positions = r.recorded.positions; left = entries_of (take_entries r.recorded.counts r.recorded.positions r.blocks r.bytes.now); rest = r.rest; byte_offset = r.byte_offset; position_offset = r.position_offset } };

    ghost invariant = { λ r. HasEntries r.recorded.counts r.recorded.positions r.blocks r.bytes.now r.byte_offset r.position_offset };
}

impl<'a> SkipReader<'a> {
    /// Opens skip entries that are known to be in their layout, at the first block.
    pub fn new(bytes: &'a [u8], doc_freq: u32, recorded: Recorded) -> SkipReader<'a>
        requires { ∥ ((entries : List SkipEntry)
            × AreSkips recorded.counts recorded.positions (doc_freq / block_len) bytes.now entries) ∥₁ }
        ensures { (entries : List SkipEntry)
            → AreSkips recorded.counts recorded.positions (doc_freq / block_len) bytes.now entries
            → result ≡ begun recorded.counts recorded.positions doc_freq entries }
    {
        SkipReader {
            bytes,
            recorded,
            blocks: doc_freq / COMPRESSION_BLOCK_SIZE as u32,
            rest: doc_freq % COMPRESSION_BLOCK_SIZE as u32,
            byte_offset: 0,
            position_offset: 0,
        }
    }

    /// Opens the skip entries of `doc_freq` documents, at the first block; other bytes are `Damaged`.
    pub fn open(bytes: &'a [u8], doc_freq: u32, recorded: Recorded) -> Result<SkipReader<'a>, Fault>
        ensures ok { IfOk result (λ reader. AreSkips recorded.counts recorded.positions (doc_freq / block_len)
            bytes.now reader.left × (reader ≡ begun recorded.counts recorded.positions doc_freq reader.left)) }
        ensures one { IfOk result (λ reader. (entries : List SkipEntry)
            → AreSkips recorded.counts recorded.positions (doc_freq / block_len) bytes.now entries
            → entries ≡ reader.left) }
        ensures err { IfErr result (λ fault. (fault ≡ faults.Damaged None)
            × ((entries : List SkipEntry)
            → AreSkips recorded.counts recorded.positions (doc_freq / block_len) bytes.now entries → ⊥)) }
    {
        if !are_skips(recorded, bytes, doc_freq / COMPRESSION_BLOCK_SIZE as u32) {
            return Err(Fault::Damaged(None));
        }
        Ok(SkipReader::new(bytes, doc_freq, recorded))
    }

    /// Returns another reader at the same block, which may go ahead of this one.
    pub fn copied(&self) -> SkipReader<'a>
        ensures { result ≡ self.now }
    {
        SkipReader {
            bytes: self.bytes,
            recorded: self.recorded,
            blocks: self.blocks,
            rest: self.rest,
            byte_offset: self.byte_offset,
            position_offset: self.position_offset,
        }
    }

    /// Moves to the first block of another term, whose postings record as much.
    pub fn reset(&mut self, bytes: &'a [u8], doc_freq: u32)
        requires { ∥ ((entries : List SkipEntry)
            × AreSkips self.old.counts self.old.positions (doc_freq / block_len) bytes.now entries) ∥₁ }
        ensures { (entries : List SkipEntry)
            → AreSkips self.old.counts self.old.positions (doc_freq / block_len) bytes.now entries
            → self.new ≡ begun self.old.counts self.old.positions doc_freq entries }
    {
        *self = SkipReader::new(bytes, doc_freq, self.recorded);
    }

    /// Returns how many positions there are before the block.
    pub fn position_offset(&self) -> u64
        ensures offset { result ≡ self.now.position_offset }
        ensures few { result < 2 ^ 62 }
    {
        self.position_offset
    }

    /// Returns how many bytes of documents and counts there are before the block.
    pub fn byte_offset(&self) -> usize
        ensures { result ≡ self.now.byte_offset }
    {
        self.byte_offset
    }

    /// Returns what the block has, with its bound as it is stored.
    pub fn block_info(&self) -> BlockInfo
        ensures { result ≡ info_of self.now.left self.now.rest }
    {
        if self.blocks == 0 {
            return BlockInfo::VInt {
                num_docs: self.rest,
            };
        }
        let (entry, _) = first_entry(self.recorded, self.bytes);
        BlockInfo::BitPacked {
            doc_num_bits: entry.doc_width,
            tf_num_bits: entry.count_width,
            tf_sum: entry.count_sum,
            block_wand_fieldnorm_id: entry.least_id,
            block_wand_term_freq: entry.greatest_count,
        }
    }

    /// Returns the last document of the block, or `TERMINATED` in the rest.
    pub fn last_doc_in_block(&self) -> u32
        ensures { result ≡ last_doc self.now.left }
    {
        if self.blocks == 0 {
            return TERMINATED;
        }
        let (entry, _) = first_entry(self.recorded, self.bytes);
        entry.last_doc
    }

    /// Moves to the first block that may contain `target`, or to the rest; returns whether that is another block.
    pub fn seek(&mut self, target: u32) -> bool
        requires { target ≤ terminated }
        ensures passed { self.new ≡ passed (blocks_before target self.old) self.old }
        ensures moved { result ≡ nat_lt 0 (blocks_before target self.old) }
    {
        let mut moved = false;
        while self.last_doc_in_block() < target {
            self.advance();
            moved = true;
        }
        moved
    }

    /// Moves to the next block, or to the rest; after the rest nothing is left.
    pub fn advance(&mut self)
        ensures block { 0 < length self.old.left → self.new ≡ passed 1 self.old }
        ensures rest { length self.old.left ≡ 0 → self.new ≡ ended self.old }
    {
        if self.blocks == 0 {
            self.rest = 0;
            return;
        }
        let (entry, after) = first_entry(self.recorded, self.bytes);
        self.bytes = after;
        self.blocks -= 1;
        self.byte_offset += compressed_block_size(entry.doc_width)
            + compressed_block_size(entry.count_width);
        self.position_offset += u64::from(entry.count_sum);
    }
}

/// Decodes a byte; returns it, and the bytes after it.
fn take_u8(bytes: &[u8]) -> Result<(u8, &[u8]), Fault>
    ensures ok { IfOk result (λ p. take_byte bytes.now ≡ Some (p.0, p.1.now)) }
    ensures err { IfErr result (λ fault. (fault ≡ faults.Damaged None) × (take_byte bytes.now ≡ None)) }
{
    match bytes.split_first() {
        Some((first, rest)) => Ok((*first, rest)),
        None => Err(Fault::Damaged(None)),
    }
}

/// Decodes a byte where it is `recorded`, else 0.
fn take_u8_where(recorded: bool, bytes: &[u8]) -> Result<(u8, &[u8]), Fault>
    ensures ok { IfOk result (λ p. take_where recorded take_byte bytes.now ≡ Some (p.0, p.1.now)) }
    ensures err { IfErr result (λ fault. (fault ≡ faults.Damaged None)
        × (take_where recorded take_byte bytes.now ≡ None)) }
{
    if !recorded {
        return Ok((0, bytes));
    }
    take_u8(bytes)
}

/// Decodes four bytes where they are `recorded`, else 0.
fn take_u32_where(recorded: bool, bytes: &[u8]) -> Result<(u32, &[u8]), Fault>
    ensures ok { IfOk result (λ p. take_where recorded take_u32 bytes.now ≡ Some (p.0, p.1.now)) }
    ensures err { IfErr result (λ fault. (fault ≡ faults.Damaged None)
        × (take_where recorded take_u32 bytes.now ≡ None)) }
{
    if !recorded {
        return Ok((0, bytes));
    }
    take_u32(bytes)
}

/// Decodes the first entry; returns it, and the bytes after it.
fn take_entry(recorded: Recorded, bytes: &[u8]) -> Result<(Entry, &[u8]), Fault>
    ensures ok { IfOk result (λ p. take_entry recorded.counts recorded.positions bytes.now
        ≡ Some (entry_of p.0, p.1.now)) }
    ensures err { IfErr result (λ fault. (fault ≡ faults.Damaged None)
        × (take_entry recorded.counts recorded.positions bytes.now ≡ None)) }
{
    let (last_doc, rest) = take_u32(bytes)?;
    let (doc_width, rest) = take_u8(rest)?;
    let (count_width, rest) = take_u8_where(recorded.counts, rest)?;
    let (count_sum, rest) = take_u32_where(recorded.positions, rest)?;
    let (least_id, rest) = take_u8(rest)?;
    let (greatest_count, rest) = take_u8(rest)?;
    let entry = Entry {
        last_doc,
        doc_width,
        count_width,
        count_sum,
        least_id,
        greatest_count,
    };
    Ok((entry, rest))
}

/// Whether `entry` is in its ranges, and of 128 documents from `least` on.
fn is_entry(recorded: Recorded, least: u64, entry: Entry) -> bool
    requires { least ≤ 2 ^ 32 }
    ensures { result ≡ is_entry recorded.counts recorded.positions least (entry_of entry) }
{
    least + 127 <= u64::from(entry.last_doc)
        && entry.last_doc < TERMINATED
        && entry.doc_width <= 31
        && entry.count_width <= 32
        && entry.greatest_count > 0
        && (recorded.counts || entry.count_width == 0 && entry.greatest_count == 1)
        && (recorded.positions || entry.count_sum == 0)
}

/// Whether the bytes are `blocks` entries, each in its ranges.
fn are_skips(recorded: Recorded, bytes: &[u8], blocks: u32) -> bool
    ensures { result ≡ are_skips recorded.counts recorded.positions blocks 0 bytes.now }
{
    let mut rest = bytes;
    let mut least: u64 = 0;
    for _ in 0..blocks {
        let Ok((entry, after)) = take_entry(recorded, rest) else {
            return false;
        };
        if !is_entry(recorded, least, entry) {
            return false;
        }
        least = u64::from(entry.last_doc) + 1;
        rest = after;
    }
    rest.is_empty()
}

/// Like `take_entry`, but for bytes that are known to begin with an entry.
fn first_entry(recorded: Recorded, bytes: &[u8]) -> (Entry, &[u8])
    requires { IsSome (take_entry recorded.counts recorded.positions bytes.now) }
    ensures { take_entry recorded.counts recorded.positions bytes.now ≡ Some (entry_of result.0, result.1.now) }
{
    match take_entry(recorded, bytes) {
        Ok(found) => found,
        Err(_) => unreachable!(),
    }
}
