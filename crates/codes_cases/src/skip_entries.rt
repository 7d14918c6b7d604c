//! Skip entries of blocks.

ghost use Rattle.std.specs.Prelude.{◌≤◌};

use case_lines::{Arguments, Refusal, flag, hex, number, triple};
use codes::{BlockInfo, Recorded, SkipReader, SkipSerializer};
use serde_json::Value;
use std::alloc::{AllocError, Global};

/// All that skip entries may tell of.
const POSITIONS: Recorded = Recorded {
    counts: true,
    positions: true,
};

/// What an operation on skip entries answers.
pub(crate) fn answer(
    alloc: Global,
    operation: &str,
    arguments: &Arguments,
) -> Result<Value, Refusal> {
    match operation {
        "entry-of-documents" => entry_of_documents(alloc, arguments),
        "entry-of-positions" => entry_of_positions(alloc, arguments),
        "entries" => Ok(hex(alloc, entries(alloc, arguments.small_number(0)?)?.data())?),
        "walk" => walk(alloc, arguments),
        "again" => again(alloc, arguments),
        "sought" => sought(alloc, arguments),
        "first-block-full" => first_block_full(alloc, arguments),
        _ => Err(Refusal::NotAsked),
    }
}

/// The entry of a block of documents alone: its last document, its width, and the two numbers of its bound.
fn entry_of_documents(alloc: Global, arguments: &Arguments) -> Result<Value, Refusal> {
    let mut serializer = SkipSerializer::new(alloc);
    serializer.write_doc(arguments.small_number(0)?, arguments.byte(1)?)?;
    serializer.write_blockwand_max(arguments.byte(2)?, arguments.small_number(3)?)?;
    Ok(hex(alloc, serializer.data())?)
}

/// The entry of a block with counts and positions, by a serializer that was cleared: the last document, the width
/// of the documents, that of the counts, the sum of the counts, and the two numbers of the bound.
fn entry_of_positions(alloc: Global, arguments: &Arguments) -> Result<Value, Refusal> {
    let mut serializer = entries(alloc, 1)?;
    serializer.clear();
    serializer.write_doc(arguments.small_number(0)?, arguments.byte(1)?)?;
    serializer.write_term_freq(arguments.byte(2)?)?;
    serializer.write_total_term_freq(arguments.small_number(3)?)?;
    serializer.write_blockwand_max(arguments.byte(4)?, arguments.small_number(5)?)?;
    Ok(hex(alloc, serializer.data())?)
}

/// The entries of a given number of blocks, each of every third document.
fn entries(alloc: Global, blocks: u32) -> Result<SkipSerializer, AllocError> {
    let mut serializer = SkipSerializer::new(alloc);
    for block in 0..blocks {
        serializer.write_doc(block.wrapping_mul(384).wrapping_add(381), 2)?;
        serializer.write_term_freq(1)?;
        serializer.write_total_term_freq(130)?;
        serializer.write_blockwand_max(7, 2)?;
    }
    Ok(serializer)
}

/// What a block's entry tells, as a list: of the rest of the documents only how many they are.
fn told(alloc: Global, info: BlockInfo) -> Result<Value, AllocError> {
    let list = match info {
        BlockInfo::BitPacked {
            doc_num_bits,
            tf_num_bits,
            tf_sum,
            block_wand_fieldnorm_id,
            block_wand_term_freq,
        } => vec![in alloc;
            number(u64::from(doc_num_bits)),
            number(u64::from(tf_num_bits)),
            number(u64::from(tf_sum)),
            number(u64::from(block_wand_fieldnorm_id)),
            number(u64::from(block_wand_term_freq)),
        ]?,
        BlockInfo::VInt { num_docs } => vec![in alloc; number(u64::from(num_docs))]?,
    };
    Ok(Value::Array(list))
}

/// Where a reader stands: what its block's entry tells, the block's last document, and the offsets at which its
/// bytes and its positions begin.
fn reader_state(alloc: Global, reader: &SkipReader<'_>) -> Result<Value, AllocError> {
    Ok(Value::Array(vec![in alloc;
        told(alloc, reader.block_info())?,
        number(u64::from(reader.last_doc_in_block())),
        number(reader.byte_offset() as u64),
        number(reader.position_offset()),
    ]?))
}

/// Adds to a list where a reader stands.
fn push_state(
    alloc: Global,
    list: &mut Vec<Value>,
    reader: &SkipReader<'_>,
) -> Result<(), AllocError> {
    Ok(list.push(reader_state(alloc, reader)?)?)
}

/// Where a reader of entries of `doc_freq` documents stands at first and after each step.
fn walk(alloc: Global, arguments: &Arguments) -> Result<Value, Refusal> {
    let bytes = arguments.bytes(alloc, 0)?;
    let mut reader = SkipReader::open(&bytes, arguments.small_number(1)?, POSITIONS)?;
    let mut list = Vec::new(alloc);
    push_state(alloc, &mut list, &reader)?;
    for _ in 0..arguments.small_number(2)? {
        reader.advance();
        push_state(alloc, &mut list, &reader)?;
    }
    Ok(Value::Array(list))
}

/// Where a reader stands that sought a document and went a step on; then, begun again, at first, and where it
/// sought the document again.
fn again(alloc: Global, arguments: &Arguments) -> Result<Value, Refusal> {
    let bytes = arguments.bytes(alloc, 0)?;
    let docs = arguments.small_number(1)?;
    let target = target(arguments.small_number(2)?);
    let mut reader = SkipReader::open(&bytes, docs, POSITIONS)?;
    reader.seek(target);
    reader.advance();
    let mut list = Vec::new(alloc);
    push_state(alloc, &mut list, &reader)?;
    reader.reset(&bytes, docs);
    push_state(alloc, &mut list, &reader)?;
    reader.seek(target);
    push_state(alloc, &mut list, &reader)?;
    Ok(Value::Array(list))
}

/// A document that may be sought.
fn target(doc: u32) -> u32
    ensures { result ≤ 2147483647 }
{
    doc.min(2147483647)
}

/// Seeks each document from 0 on below a bound, each by a new reader of the entries: the
/// first document of each run with one answer, whether blocks were passed, and where the reader stands then.
fn sought(alloc: Global, arguments: &Arguments) -> Result<Value, Refusal> {
    let bytes = arguments.bytes(alloc, 0)?;
    let docs = arguments.small_number(1)?;
    let mut runs = Vec::new(alloc);
    let mut last = None;
    for doc in 0..arguments.small_number(2)? {
        let mut reader = SkipReader::open(&bytes, docs, POSITIONS)?;
        let passed = reader.seek(target(doc));
        let stand = (
            passed,
            reader.last_doc_in_block(),
            reader.byte_offset(),
            reader.position_offset(),
        );
        if last != Some(stand) {
            last = Some(stand);
            runs.push(run(alloc, doc, passed, &reader)?)?;
        }
    }
    Ok(Value::Array(runs))
}

/// A run of one answer: its first document, whether blocks were passed, and where the reader stands then.
fn run(
    alloc: Global,
    doc: u32,
    passed: bool,
    reader: &SkipReader<'_>,
) -> Result<Value, AllocError> {
    let at = reader_state(alloc, reader)?;
    triple(alloc, number(u64::from(doc)), flag(passed), at)
}

/// Whether the first block of entries ends at document 127 or later.
fn first_block_full(alloc: Global, arguments: &Arguments) -> Result<Value, Refusal> {
    let bytes = arguments.bytes(alloc, 0)?;
    let reader = SkipReader::open(&bytes, arguments.small_number(1)?, POSITIONS)?;
    Ok(flag(reader.last_doc_in_block() >= 127))
}
