//! Cursors over the postings of a term whose documents are the first multiples of three, a given number of them.

ghost use Rattle.std.specs.Prelude.{[], ◌*◌, ◌<◌, ◌≡◌, ◌≤◌, IfOk, List, None, OnOk, false, length, true, ℕ};
ghost use Rattle.std.specs.List.{AllByRecursion};
ghost use Rattle.definitions.specs.Schema.{has_freq, has_positions};
ghost use Rattle.layouts.specs.Positions.{ArePositions};
ghost use Rattle.options.specs.RecordOption.{record_option_of};
ghost use Rattle.docsets.specs.Entries.{from};
ghost use Rattle.segment_postings.specs.Reading.{HasPostings};
ghost use Rattle.segment_postings.specs.TermEntries.{HasPositions};
ghost use Rattle.postings_writer.specs.TermWriting.{AreWritten};

use codes::{PositionReader, PositionSerializer, Recorded};
use common::{AliveBitSet, TERMINATED};
use definitions::Fault;
use options::IndexRecordOption;
use postings::{
    BlockSegmentPostings, DocSet, Postings, PostingsSerializer, SeekDangerResult, SegmentPostings,
};
use segment_postings::recorded_of;
use std::alloc::{AllocError, Global};
use std::test::Fail;

const LENGTHS: [u16; 8] = [0, 1, 127, 128, 129, 256, 257, 1000];

const BASIC: IndexRecordOption = IndexRecordOption::Basic;

const FREQS: IndexRecordOption = IndexRecordOption::WithFreqs;

const POSITIONS: IndexRecordOption = IndexRecordOption::WithFreqsAndPositions;

const STRIDES: [u32; 6] = [1, 2, 100, 383, 385, 1000];

// What the list of documents has.

fn doc_at(index: u32, num_docs: u32) -> u32
    requires { num_docs ≤ 65535 }
{
    if index < num_docs {
        3 * index
    } else {
        TERMINATED
    }
}

fn count_at(index: u32) -> u32
    ensures { (0 < result) × (result ≤ 3) }
{
    1 + index % 3
}

/// How many documents are below one.
fn below(target: u32, num_docs: u32) -> u32 {
    num_docs.min(target.div_ceil(3))
}

/// Whether a move from an index to another comes into another block that has documents.
fn enters(from: u32, to: u32, num_docs: u32) -> bool {
    to / 128 != from / 128 && to / 128 * 128 < num_docs
}

fn write_docs(serializer: &mut PostingsSerializer, num_docs: u32) -> Result<(), Fault>
    requires few { num_docs ≤ 65535 }
    requires next { serializer.old.next ≡ 0 }
    requires lengths { serializer.old.norms ≡ None }
    requires nothing { AreWritten serializer.old [] [] }
    ensures written { OnOk result ((docs counts : List ℕ) × AreWritten serializer.new docs counts
        × (length docs ≡ num_docs) × AllByRecursion (λ d. d < 3 * num_docs) docs) }
    ensures same { OnOk result ((serializer.new.option ≡ serializer.old.option) × (serializer.new.norms ≡ None)) }
{
    for index in 0..num_docs {
        serializer.write_doc(3 * index, count_at(index))?;
    }
    Ok(())
}

fn written(alloc: Global, option: IndexRecordOption, num_docs: u32) -> Result<Vec<u8>, Fault>
    requires { num_docs ≤ 65535 }
    ensures { IfOk result (λ bytes. (docs counts : List ℕ)
        × HasPostings (has_freq (record_option_of option)) (has_positions (record_option_of option)) num_docs
        bytes.items docs counts × AllByRecursion (λ d. d < 3 * num_docs) docs) }
{
    let mut serializer = PostingsSerializer::new(alloc, option, None);
    let mut bytes = Vec::new(alloc);
    write_docs(&mut serializer, num_docs)?;
    serializer.close_term(num_docs, &mut bytes)?;
    Ok(bytes)
}

/// Adds each document, and its positions: its index, and then five more each.
fn write_with_positions(
    serializer: &mut PostingsSerializer,
    positions: &mut PositionSerializer,
    num_docs: u32,
) -> Result<(), Fault>
    requires few { num_docs ≤ 65535 }
    requires next { serializer.old.next ≡ 0 }
    requires lengths { serializer.old.norms ≡ None }
    requires counted { has_freq serializer.old.option ≡ true }
    requires nothing { AreWritten serializer.old [] [] }
    requires none { positions.old ≡ ([], []) }
    ensures written { OnOk result ((docs counts : List ℕ) × (lists : List (List ℕ))
        × AreWritten serializer.new docs counts × (length docs ≡ num_docs)
        × HasPositions counts lists positions.new.1) }
    ensures same { OnOk result ((serializer.new.option ≡ serializer.old.option) × (serializer.new.norms ≡ None)
        × (positions.new.0 ≡ [])) }
{
    for index in 0..num_docs {
        let count = count_at(index);
        serializer.write_doc(3 * index, count)?;
        positions.write_positions_delta(&[index, 5, 5][..count as usize])?;
    }
    Ok(())
}

/// The bytes of the postings, and those of the positions.
fn written_with_positions(alloc: Global, num_docs: u32) -> Result<(Vec<u8>, Vec<u8>), Fault>
    requires { num_docs ≤ 65535 }
    ensures { IfOk result (λ bytes. (docs counts : List ℕ) × (lists : List (List ℕ)) × (numbers : List ℕ)
        × HasPostings true true num_docs bytes.0.items docs counts × HasPositions counts lists numbers
        × ArePositions numbers bytes.1.items) }
{
    let mut serializer = PostingsSerializer::new(alloc, POSITIONS, None);
    let mut positions = PositionSerializer::new(alloc, Vec::new(alloc));
    let mut bytes = Vec::new(alloc);
    write_with_positions(&mut serializer, &mut positions, num_docs)?;
    serializer.close_term(num_docs, &mut bytes)?;
    positions.close_term()?;
    Ok((bytes, positions.close()))
}

fn opened<'a>(bytes: &'a [u8], option: IndexRecordOption, num_docs: u32) -> SegmentPostings<'a>
    requires { (docs counts : List ℕ)
        × HasPostings (has_freq (record_option_of option)) (has_positions (record_option_of option)) num_docs bytes.now
        docs counts × AllByRecursion (λ d. d < 3 * num_docs) docs }
    ensures { from (3 * num_docs) (⟦<SegmentPostings<'a> as DocSet>⟧.entries result) ≡ [] }
{
    SegmentPostings::new(bytes, num_docs, recorded_of(option), option.has_freq())
}

fn opened_with_positions<'a>(
    bytes: &'a [u8],
    positions: &'a [u8],
    num_docs: u32,
) -> SegmentPostings<'a>
    requires { (docs counts : List ℕ) × (lists : List (List ℕ)) × (numbers : List ℕ)
        × HasPostings true true num_docs bytes.now docs counts × HasPositions counts lists numbers
        × ArePositions numbers positions.now }
{
    let recorded = Recorded {
        counts: true,
        positions: true,
    };
    SegmentPostings::with_positions(bytes, num_docs, recorded, PositionReader::new(positions))
}

fn block_opened<'a>(bytes: &'a [u8], num_docs: u32) -> BlockSegmentPostings<'a>
    requires { (docs counts : List ℕ) × HasPostings true false num_docs bytes.now docs counts }
{
    BlockSegmentPostings::new(bytes, num_docs, recorded_of(FREQS), true, false)
}

/// Whether each document comes with its count, and the counter tells the blocks.
fn walks(postings: &mut SegmentPostings, num_docs: u32, counted: bool) -> bool
    requires { num_docs ≤ 65535 }
{
    let mut decoded = u64::from(num_docs.min(1));
    let mut right = true;
    for index in 0..num_docs + 200 {
        right &= postings.doc() == doc_at(index, num_docs) && postings.decoded_blocks() == decoded;
        if postings.doc() < TERMINATED {
            right &= postings.term_freq() == if counted { count_at(index) } else { 1 };
        }
        right &= postings.advance() == doc_at(index + 1, num_docs);
        decoded = decoded.wrapping_add(u64::from(enters(index, index + 1, num_docs)));
    }
    right
}

/// Whether a term of a given number of documents is walked, and counted to its end.
fn is_walked(alloc: Global, option: IndexRecordOption, num_docs: u32) -> Result<bool, Fault>
    requires { num_docs ≤ 65535 }
{
    let bytes = written(alloc, option, num_docs)?;
    let mut postings = opened(&bytes, option, num_docs);
    let walked = postings.doc_freq() == num_docs
        && walks(&mut postings, num_docs, option.has_freq());
    let mut postings = opened(&bytes, option, num_docs);
    let counted = postings.count_including_deleted() == num_docs;
    Ok(walked && counted && postings.doc() == TERMINATED)
}

/// Whether seeks in steps of a given number of documents come to theirs.
fn seeks(postings: &mut SegmentPostings, num_docs: u32, stride: u32) -> bool
    requires { num_docs ≤ 65535 }
{
    let mut index = 0;
    let mut decoded = u64::from(num_docs.min(1));
    let mut target = 0u32;
    let mut right = true;
    for _ in 0..3 * num_docs + 3 {
        if postings.doc() <= target && target <= TERMINATED {
            let to = below(target, num_docs);
            right &= postings.seek(target) == doc_at(to, num_docs);
            right &= postings.doc() == doc_at(to, num_docs);
            decoded = decoded.wrapping_add(u64::from(enters(index, to, num_docs)));
            right &= postings.decoded_blocks() == decoded;
            index = to;
        }
        target = target.wrapping_add(stride);
    }
    right
}

/// Whether a term of a given number of documents is sought in each step.
fn is_sought(alloc: Global, option: IndexRecordOption, num_docs: u32) -> Result<bool, Fault>
    requires { num_docs ≤ 65535 }
{
    let bytes = written(alloc, option, num_docs)?;
    let mut right = true;
    for stride in STRIDES {
        right &= seeks(&mut opened(&bytes, option, num_docs), num_docs, stride);
    }
    Ok(right)
}

/// Whether what a cursor answers for a document agrees with the next one that it has.
fn is_told(found: SeekDangerResult, target: u32, next: u32) -> bool {
    match found {
        SeekDangerResult::Found => target == next,
        SeekDangerResult::SeekLowerBound(bound) => target < bound && bound <= next,
    }
}

/// Whether each document is told that is asked for in steps of a given number, and then sought.
fn asks(docs: &mut impl DocSet, num_docs: u32, stride: u32) -> bool
    requires { num_docs ≤ 65535 }
{
    let mut target = 0u32;
    let mut right = true;
    for _ in 0..3 * num_docs + 3 {
        if target >= TERMINATED {
            return right;
        }
        let next = doc_at(below(target, num_docs), num_docs);
        right &= is_told(docs.seek_danger(target), target, next);
        if docs.doc() <= target {
            right &= docs.seek(target) == next;
        }
        right &= docs.doc() == next;
        target = target.wrapping_add(stride);
    }
    right
}

/// Whether a term of a given number of documents is asked for in each step.
fn is_asked_for(alloc: Global, option: IndexRecordOption, num_docs: u32) -> Result<bool, Fault>
    requires { num_docs ≤ 65535 }
{
    let bytes = written(alloc, option, num_docs)?;
    let mut right = true;
    for stride in STRIDES {
        right &= asks(&mut opened(&bytes, option, num_docs), num_docs, stride);
    }
    Ok(right)
}

/// Whether a buffer that was filled to a number has the documents from an index on.
fn has_docs(buffer: &[u32; 64], filled: u32, first: u32, num_docs: u32) -> bool
    requires { num_docs ≤ 65535 }
{
    let mut right = true;
    for (i, doc) in buffer.into_iter().enumerate() {
        if (i as u32) < filled {
            right &= *doc == doc_at(first.wrapping_add(i as u32), num_docs);
        }
    }
    right
}

/// Whether buffers are filled to the end.
fn fills(docs: &mut impl DocSet, num_docs: u32) -> bool
    requires { num_docs ≤ 65535 }
{
    let mut right = true;
    for turn in 0..num_docs / 64 + 2 {
        let first = 64 * turn;
        let mut buffer = [0; 64];
        let filled = docs.fill_buffer(&mut buffer) as u32;
        right &= filled == 64.min(num_docs.saturating_sub(first));
        right &= has_docs(&buffer, filled, first, num_docs);
        right &= docs.doc() == doc_at(first + 64, num_docs);
    }
    right
}

/// Which documents are alive: those at even indices.
fn every_second(alloc: Global, num_docs: u32) -> Result<AliveBitSet, Fault>
    requires { num_docs ≤ 65535 }
    ensures { IfOk result (λ alive. length alive ≡ 3 * num_docs) }
{
    let mut alive = AliveBitSet::for_max_doc(alloc, 3 * num_docs)?;
    for index in 0..num_docs {
        if index % 2 == 1 {
            alive.kill(3 * index);
        }
    }
    Ok(alive)
}

/// Whether the documents of a term are copied, and those that are alive are counted.
fn is_counted(alloc: Global, option: IndexRecordOption, num_docs: u32) -> Result<bool, Fault>
    requires { num_docs ≤ 65535 }
{
    let alive = every_second(alloc, num_docs)?;
    let bytes = written(alloc, option, num_docs)?;
    let copied = fills(&mut opened(&bytes, option, num_docs), num_docs);
    let mut postings = opened(&bytes, option, num_docs);
    let counted = postings.count(&alive) == num_docs.div_ceil(2);
    Ok(copied && counted && postings.doc() == TERMINATED)
}

/// Whether all moves over terms of each length are right.
fn are_moves_right(alloc: Global, option: IndexRecordOption) -> Result<bool, Fault> {
    let mut right = true;
    for num_docs in LENGTHS {
        let num_docs = u32::from(num_docs);
        right &= is_walked(alloc, option, num_docs)?;
        right &= is_sought(alloc, option, num_docs)?;
        right &= is_asked_for(alloc, option, num_docs)?;
        right &= is_counted(alloc, option, num_docs)?;
    }
    Ok(right)
}

#[test]
fn documents_are_moved_over(rt: HostRuntime) -> Result<(), Fail> {
    assert!(rt; are_moves_right(rt.alloc(), BASIC)?);
    Ok(())
}

#[test]
fn documents_with_counts_are_moved_over(rt: HostRuntime) -> Result<(), Fail> {
    assert!(rt; are_moves_right(rt.alloc(), FREQS)?);
    Ok(())
}

#[test]
fn documents_with_positions_are_moved_over(rt: HostRuntime) -> Result<(), Fail> {
    assert!(rt; are_moves_right(rt.alloc(), POSITIONS)?);
    Ok(())
}

/// Whether the positions of the current document are told in each form.
fn tells_positions(
    postings: &mut impl Postings,
    output: &mut Vec<u32>,
) -> Result<bool, AllocError> {
    let doc = postings.doc();
    if doc >= TERMINATED {
        return Ok(true);
    }
    let first = doc / 3;
    let count = count_at(first) as usize;
    let counted = postings.term_freq() as usize == count && count <= postings.most_positions();
    postings.positions(output)?;
    let own = output.as_slice() == &[first, first + 5, first + 10][..count];
    postings.append_positions_with_offset(9, output)?;
    let appended = output.get(count..) == Some(&[first + 9, first + 14, first + 19][..count]);
    postings.positions_with_offset(1000, output)?;
    let moved = output.as_slice() == &[first + 1000, first + 1005, first + 1010][..count];
    Ok(counted && own && appended && moved)
}

/// Whether each document has its positions, seeking in steps of a given number of documents.
fn tells_all_positions(
    alloc: Global,
    postings: &mut impl Postings,
    num_docs: u32,
    stride: u32,
) -> Result<bool, AllocError> {
    let mut output = Vec::new(alloc);
    let mut right = true;
    for _ in 0..num_docs {
        right &= tells_positions(postings, &mut output)?;
        let doc = postings.doc();
        if doc < TERMINATED {
            postings.seek(doc.saturating_add(stride).min(TERMINATED));
        }
    }
    Ok(right)
}

/// Whether the positions of a term of a given number of documents are read in each step.
fn are_positions_read(alloc: Global, num_docs: u32) -> Result<bool, Fault>
    requires { num_docs ≤ 65535 }
{
    let (bytes, numbers) = written_with_positions(alloc, num_docs)?;
    let mut right = true;
    for stride in STRIDES {
        let mut postings = opened_with_positions(&bytes, &numbers, num_docs);
        right &= tells_all_positions(alloc, &mut postings, num_docs, stride)?;
    }
    Ok(right)
}

/// Whether the block that is held has this index, the document there and its count.
fn holds_index(blocks: &BlockSegmentPostings, i: usize, at: u32, num_docs: u32) -> bool
    requires index { i < 128 }
    requires few { num_docs ≤ 65535 }
{
    if i >= blocks.block_len() {
        return true;
    }
    blocks.docs().get(i) == Some(&doc_at(at, num_docs))
        && blocks.freqs().get(i) == Some(&count_at(at))
        && blocks.freq(i) == count_at(at)
}

/// Whether the block that is held has the documents and the counts from an index on.
fn holds(blocks: &BlockSegmentPostings, index: u32, num_docs: u32) -> bool
    requires few { num_docs ≤ 65535 }
    requires index { index ≤ num_docs }
{
    let len = blocks.block_len();
    let mut right = len == 128.min(num_docs - index) as usize;
    right &= blocks.docs().len() == len && blocks.freqs().len() == len;
    for i in 0..128 {
        let at = index + i as u32;
        right &= blocks.doc(i) == doc_at(at, num_docs) && holds_index(blocks, i, at, num_docs);
    }
    right
}

/// Whether the blocks of a term of a given number of documents come one after another.
fn are_blocks_walked(alloc: Global, num_docs: u32) -> Result<bool, Fault>
    requires { num_docs ≤ 65535 }
{
    let bytes = written(alloc, FREQS, num_docs)?;
    let mut blocks = block_opened(&bytes, num_docs);
    let mut right = blocks.doc_freq() == num_docs;
    for block in 0..num_docs / 128 + 1 {
        let decoded = (block + 1).min(num_docs.div_ceil(128));
        right &= holds(&blocks, 128 * block, num_docs);
        right &= blocks.decoded_blocks() == u64::from(decoded);
        blocks.advance();
    }
    Ok(right && blocks.block_len() == 0)
}

/// Whether a seek of blocks comes to the block of its document, and to the document's index there.
fn is_block_sought(bytes: &[u8], target: u32, num_docs: u32) -> bool
    requires few { num_docs ≤ 65535 }
    requires target { target ≤ 2147483647 }
    requires known { (docs counts : List ℕ) × HasPostings true false num_docs bytes.now docs counts }
{
    let mut blocks = block_opened(bytes, num_docs);
    let index = below(target, num_docs);
    let at = (index % 128) as usize;
    let entered = u64::from(enters(0, index, num_docs));
    let decoded = u64::from(num_docs.min(1)).wrapping_add(entered);
    blocks.seek(target) == at
        && blocks.doc(at) == doc_at(index, num_docs)
        && blocks.decoded_blocks() == decoded
}

/// Whether each seek in a term of a given number of documents does.
fn are_blocks_sought(alloc: Global, num_docs: u32) -> Result<bool, Fault>
    requires { num_docs ≤ 65535 }
{
    let bytes = written(alloc, FREQS, num_docs)?;
    let mut right = true;
    for target in 0..3 * num_docs + 2 {
        right &= is_block_sought(&bytes, target, num_docs);
    }
    Ok(right)
}

/// Whether the positions and the blocks of terms of each length are right.
fn are_parts_right(alloc: Global) -> Result<bool, Fault> {
    let mut right = true;
    for num_docs in LENGTHS {
        let num_docs = u32::from(num_docs);
        right &= are_positions_read(alloc, num_docs)?;
        right &= are_blocks_walked(alloc, num_docs)?;
        right &= are_blocks_sought(alloc, num_docs)?;
    }
    Ok(right)
}

#[test]
fn positions_and_blocks_are_read(rt: HostRuntime) -> Result<(), Fail> {
    assert!(rt; are_parts_right(rt.alloc())?);
    Ok(())
}
