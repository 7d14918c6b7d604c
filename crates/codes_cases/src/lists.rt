//! Lists of numbers in bytes of seven bits.

ghost use Rattle.std.specs.Prelude.{◌^◌, ◌≡◌, ◌≤◌, IsTrue};
ghost use Rattle.layouts.specs.Deltas.{IsAscendingFrom, next_of};

use case_lines::{Arguments, Refusal, hex, number, numbers};
use codes::{BlockDecoder, BlockEncoder, VIntDecoder, VIntEncoder};
use serde_json::Value;
use std::alloc::Global;

/// What an operation on lists answers.
pub(crate) fn answer(
    alloc: Global,
    operation: &str,
    arguments: &Arguments,
) -> Result<Value, Refusal> {
    match operation {
        "of-numbers" => of_numbers(alloc, arguments),
        "of-documents" => of_documents(alloc, arguments),
        "take-numbers" => take_numbers(alloc, arguments),
        "take-documents" => take_documents(alloc, arguments),
        "take-all" => take_all(alloc, arguments),
        _ => Err(Refusal::NotAsked),
    }
}

/// The bytes of numbers.
fn of_numbers(alloc: Global, arguments: &Arguments) -> Result<Value, Refusal> {
    let mut bytes = Vec::new(alloc);
    let list = arguments.numbers(alloc, 0)?;
    BlockEncoder::new().compress_vint_unsorted(&mut bytes, &list)?;
    Ok(hex(alloc, &bytes)?)
}

/// The bytes of three documents behind an offset.
fn of_documents(alloc: Global, arguments: &Arguments) -> Result<Value, Refusal> {
    let mut bytes = Vec::new(alloc);
    let docs = arguments.numbers(alloc, 0)?;
    let offset = arguments.small_number(1)?;
    if !ascend(&docs, least_behind(offset)) {
        return Err(Refusal::NotAsked);
    }
    BlockEncoder::new().compress_vint_sorted(&mut bytes, &docs, offset)?;
    Ok(hex(alloc, &bytes)?)
}

/// The least document behind an offset; 0 says that none stands before.
fn least_behind(offset: u32) -> u64
    ensures { result ≡ next_of offset }
{
    if offset == 0 {
        return 0;
    }
    u64::from(offset) + 1
}

/// Whether the documents ascend from one that is the least.
fn ascend(docs: &[u32], least: u64) -> bool
    requires { least ≤ 2 ^ 32 }
    ensures { IsTrue result → IsAscendingFrom least docs.now }
{
    let Some((first, rest)) = docs.split_first() else {
        return true;
    };
    u64::from(*first) >= least && ascend(rest, u64::from(*first) + 1)
}

/// What a decoder read: how many bytes, the numbers, the element behind them where there is one, and the last element.
fn told(
    alloc: Global,
    decoder: &BlockDecoder,
    consumed: usize,
    count: usize,
) -> Result<Value, Refusal> {
    let padding = if count < 128 {
        number(u64::from(decoder.output(count)))
    } else {
        Value::Null
    };
    Ok(Value::Array(vec![in alloc;
        number(consumed as u64),
        numbers(alloc, decoder.output_array())?,
        padding,
        number(u64::from(decoder.output(127))),
    ]?))
}

/// A number of numbers at the front of bytes. The call for bytes that are known to be a list reads the same ones.
fn take_numbers(alloc: Global, arguments: &Arguments) -> Result<Value, Refusal> {
    let bytes = arguments.bytes(alloc, 0)?;
    let count = arguments.byte(1)? as usize;
    let padding = arguments.small_number(2)?;
    if count > 128 {
        return Err(Refusal::NotAsked);
    }
    let mut decoder = BlockDecoder::with_val(0);
    let mut plain = BlockDecoder::with_val(1);
    let consumed = decoder.try_uncompress_vint_unsorted(&bytes, count, padding)?;
    let again = plain.uncompress_vint_unsorted(&bytes, count, padding);
    if again != consumed || plain.output_array() != decoder.output_array() {
        return Err(Refusal::NotAsked);
    }
    told(alloc, &decoder, consumed, count)
}

/// A number of documents behind an offset at the front of bytes, by both calls.
fn take_documents(alloc: Global, arguments: &Arguments) -> Result<Value, Refusal> {
    let bytes = arguments.bytes(alloc, 0)?;
    let offset = arguments.small_number(1)?;
    let count = arguments.byte(2)? as usize;
    let padding = arguments.small_number(3)?;
    if count > 128 {
        return Err(Refusal::NotAsked);
    }
    let mut decoder = BlockDecoder::with_val(0);
    let mut plain = BlockDecoder::with_val(1);
    let consumed = decoder.try_uncompress_vint_sorted(&bytes, offset, count, padding)?;
    let again = plain.uncompress_vint_sorted(&bytes, offset, count, padding);
    if again != consumed || plain.output_array() != decoder.output_array() {
        return Err(Refusal::NotAsked);
    }
    told(alloc, &decoder, consumed, count)
}

/// All numbers of bytes, by both calls.
fn take_all(alloc: Global, arguments: &Arguments) -> Result<Value, Refusal> {
    let bytes = arguments.bytes(alloc, 0)?;
    let mut decoder = BlockDecoder::with_val(0);
    let mut plain = BlockDecoder::with_val(1);
    decoder.try_uncompress_vint_unsorted_until_end(&bytes)?;
    plain.uncompress_vint_unsorted_until_end(&bytes);
    if plain.output_array() != decoder.output_array() {
        return Err(Refusal::NotAsked);
    }
    Ok(numbers(alloc, decoder.output_array())?)
}
