//! Packed blocks of 128 numbers, and of 128 ascending documents.

use case_lines::{Arguments, Refusal, flag, hex, number, numbers, pair, triple};
use codes::{BlockDecoder, BlockEncoder, compressed_block_size};
use serde_json::Value;
use std::alloc::Global;

/// What an operation on blocks answers.
pub(crate) fn answer(
    alloc: Global,
    operation: &str,
    arguments: &Arguments,
) -> Result<Value, Refusal> {
    match operation {
        "of-numbers" => of_numbers(alloc, arguments),
        "of-deltas" => of_deltas(alloc, arguments),
        "documents" => documents(alloc, arguments),
        "fills" => fills(alloc, arguments),
        "fills-documents" => fills_documents(alloc, arguments),
        _ => Err(Refusal::NotAsked),
    }
}

/// The width of a block of 128 numbers, its bytes, and whether the numbers are read from them again.
fn of_numbers(alloc: Global, arguments: &Arguments) -> Result<Value, Refusal> {
    let list = arguments.numbers(alloc, 0)?;
    if list.len() != 128 {
        return Err(Refusal::NotAsked);
    }
    let mut encoder = BlockEncoder::new();
    let (num_bits, bytes) = encoder.compress_block_unsorted(&list);
    let mut followed = Vec::from_slice(alloc, bytes)?;
    followed.extend_from_slice(b"what follows")?;
    let read = is_read(bytes, num_bits, &list)
        && is_read(&followed, num_bits, &list)
        && bytes.len() == compressed_block_size(num_bits);
    triple_of_block(alloc, num_bits, bytes, read)
}

/// A block's width, its bytes, and what is said of them.
fn triple_of_block(
    alloc: Global,
    num_bits: u8,
    bytes: &[u8],
    read: bool,
) -> Result<Value, Refusal> {
    let width = number(u64::from(num_bits));
    Ok(triple(alloc, width, hex(alloc, bytes)?, flag(read))?)
}

/// Whether both readers read the numbers of a block.
fn is_read(bytes: &[u8], num_bits: u8, list: &[u32]) -> bool {
    let mut checked = BlockDecoder::with_val(9);
    let mut plain = BlockDecoder::with_val(9);
    let size = compressed_block_size(num_bits);
    if num_bits > 32 || checked.checked_block_unsorted(bytes, num_bits) != Ok(size) {
        return false;
    }
    if bytes.len() < size {
        return false;
    }
    plain.uncompress_block_unsorted(bytes, num_bits);
    checked.output_array() == list && plain.output_array() == list
}

/// The documents of 128 deltas behind an offset, where their block is read and written as `documents` does.
fn of_deltas(alloc: Global, arguments: &Arguments) -> Result<Value, Refusal> {
    let deltas = arguments.numbers(alloc, 0)?;
    let offset = arguments.small_number(1)?;
    if deltas.len() != 128 {
        return Err(Refusal::NotAsked);
    }
    let mut encoder = BlockEncoder::new();
    let (num_bits, bytes) = encoder.compress_block_unsorted(&deltas);
    read_documents(alloc, bytes, offset, num_bits)
}

/// The documents of a block behind an offset.
fn documents(alloc: Global, arguments: &Arguments) -> Result<Value, Refusal> {
    let bytes = arguments.bytes(alloc, 0)?;
    read_documents(
        alloc,
        &bytes,
        arguments.small_number(1)?,
        arguments.byte(2)?,
    )
}

/// The documents of a block behind an offset, and whether both readers and the writer agree on the bytes.
fn read_documents(
    alloc: Global,
    bytes: &[u8],
    offset: u32,
    num_bits: u8,
) -> Result<Value, Refusal> {
    let mut again = BlockEncoder::new();
    let mut checked = BlockDecoder::with_val(9);
    let mut plain = BlockDecoder::with_val(9);
    let consumed = checked.checked_block_sorted(bytes, offset, num_bits)?;
    if num_bits > 32 || bytes.len() < compressed_block_size(num_bits) {
        return Err(Refusal::NotAsked);
    }
    plain.uncompress_block_sorted(bytes, offset, num_bits);
    let block = again.compress_block_sorted(checked.output_array(), offset);
    let agree = consumed == bytes.len()
        && plain.output_array() == checked.output_array()
        && block == (num_bits, bytes);
    Ok(pair(alloc, numbers(alloc, checked.output_array())?, flag(agree))?)
}

/// Whether a block of numbers of that width takes all the bytes.
fn fills(alloc: Global, arguments: &Arguments) -> Result<Value, Refusal> {
    let bytes = arguments.bytes(alloc, 0)?;
    let mut decoder = BlockDecoder::with_val(9);
    let consumed = decoder.checked_block_unsorted(&bytes, arguments.byte(1)?)?;
    Ok(flag(consumed == bytes.len()))
}

/// Whether a block of documents behind an offset takes all the bytes.
fn fills_documents(alloc: Global, arguments: &Arguments) -> Result<Value, Refusal> {
    let bytes = arguments.bytes(alloc, 0)?;
    let mut decoder = BlockDecoder::with_val(9);
    let offset = arguments.small_number(1)?;
    let consumed = decoder.checked_block_sorted(&bytes, offset, arguments.byte(2)?)?;
    Ok(flag(consumed == bytes.len()))
}
