//! Positions of terms.

ghost use Rattle.std.specs.Prelude.{◌<◌, ◌^◌};

use case_lines::{Arguments, Refusal, flag, hex, number, numbers, pair, triple};
use codes::{PositionReader, PositionSerializer};
use serde_json::Value;
use std::alloc::{AllocError, Global};

/// What an operation on positions answers.
pub(crate) fn answer(
    alloc: Global,
    operation: &str,
    arguments: &Arguments,
) -> Result<Value, Refusal> {
    match operation {
        "bytes" => bytes_of_pair(alloc, arguments),
        "read" => read(alloc, arguments),
        "count" => count(alloc, arguments),
        "mixed" => read_in_orders(alloc, arguments.small_number(0)?),
        "run" => right_in_run(alloc, arguments),
        "fewer" => fewer(alloc, arguments),
        "last-small" => last_is_small(alloc, arguments),
        _ => Err(Refusal::NotAsked),
    }
}

/// A number below 2^31.
fn small(number: u32) -> u32
    ensures { result < 2 ^ 31 }
{
    number % 0x8000_0000
}

/// A document with one position and the next with two: how many bytes are written before the term is closed, how
/// many then, and the bytes.
fn bytes_of_pair(alloc: Global, arguments: &Arguments) -> Result<Value, Refusal> {
    let mut serializer = PositionSerializer::new(alloc, Vec::new(alloc));
    let first = small(arguments.small_number(0)?);
    let second = small(arguments.small_number(1)?);
    let third = small(arguments.small_number(2)?);
    serializer.write_positions_delta(&[first])?;
    serializer.write_positions_delta(&[second, third])?;
    let before = serializer.written_bytes();
    serializer.close_term()?;
    let written = serializer.written_bytes();
    let bytes = hex(alloc, &serializer.close())?;
    Ok(triple(alloc, number(before), number(written), bytes)?)
}

/// How many numbers there are; of more than a u64 the greatest one.
fn how_many(count: u128) -> Value {
    number(u64::try_from(count).unwrap_or(u64::MAX))
}

/// How many numbers there are, and a given number of them from an offset on.
fn read(alloc: Global, arguments: &Arguments) -> Result<Value, Refusal> {
    let bytes = arguments.bytes(alloc, 0)?;
    let offset = arguments.small_number(1)?;
    let wanted = arguments.byte(2)? as usize;
    let mut reader = PositionReader::open(&bytes)?;
    let mut output = vec![in alloc; 0; wanted]?;
    let all = reader.num_positions();
    if u128::from(offset) + output.len() as u128 > all {
        return Err(Refusal::NotAsked);
    }
    reader.read(u64::from(offset), &mut output);
    Ok(pair(alloc, how_many(all), numbers(alloc, &output)?)?)
}

/// How many numbers there are.
fn count(alloc: Global, arguments: &Arguments) -> Result<Value, Refusal> {
    let bytes = arguments.bytes(alloc, 0)?;
    let reader = PositionReader::open(&bytes)?;
    Ok(how_many(reader.num_positions()))
}

/// The number at an index of a list that holds small and great ones.
fn number_at(index: u32) -> u32
    ensures { result < 2 ^ 31 }
{
    (index.wrapping_mul(2654435761) >> (index % 31)) % 0x8000_0000
}

/// The positions of a term, each number written alone.
fn mixed_positions(alloc: Global, count: u32) -> Result<Vec<u8>, AllocError> {
    let mut serializer = PositionSerializer::new(alloc, Vec::new(alloc));
    for index in 0..count {
        serializer.write_positions_delta(&[number_at(index)])?;
    }
    serializer.close_term()?;
    Ok(serializer.close())
}

/// Whether the reader has the number that was written at an index.
fn agrees(reader: &mut PositionReader, index: u32) -> bool {
    let mut number = [u32::MAX];
    if u128::from(index) < reader.num_positions() {
        reader.read(u64::from(index), &mut number);
    }
    number[0] == number_at(index)
}

/// Writes numbers, and answers how many there are, and how many are read right by one reader: forward,
/// backward and by steps of 7919.
fn read_in_orders(alloc: Global, count: u32) -> Result<Value, Refusal> {
    let bytes = mixed_positions(alloc, count)?;
    let mut reader = PositionReader::open(&bytes)?;
    let mut list = Vec::new(alloc);
    list.push(how_many(reader.num_positions()))?;
    for order in 0..3 {
        list.push(number(right_in_order(&mut reader, order, count)))?;
    }
    Ok(Value::Array(list))
}

/// How many of the numbers are read right in an order.
fn right_in_order(reader: &mut PositionReader, order: u32, count: u32) -> u64 {
    let mut right = 0u64;
    for step in 0..count {
        let index = match order {
            0 => step,
            1 => count.wrapping_sub(1).wrapping_sub(step),
            _ => step.wrapping_mul(7919).checked_rem(count).unwrap_or(0),
        };
        if agrees(reader, index) {
            right = right.saturating_add(1);
        }
    }
    right
}

/// Writes 1000 numbers, reads 301 at once from an offset on, and answers how many are right.
fn right_in_run(alloc: Global, arguments: &Arguments) -> Result<Value, Refusal> {
    let bytes = mixed_positions(alloc, 1000)?;
    let mut reader = PositionReader::open(&bytes)?;
    let offset = arguments.small_number(0)?;
    let mut output = vec![in alloc; u32::MAX; 301]?;
    if u128::from(offset) + output.len() as u128 > reader.num_positions() {
        return Err(Refusal::NotAsked);
    }
    reader.read(u64::from(offset), &mut output);
    let mut right = 0u64;
    let mut index = offset;
    for number in &output {
        if *number == number_at(index) {
            right = right.saturating_add(1);
        }
        index = index.wrapping_add(1);
    }
    Ok(number(right))
}

/// Whether there are fewer numbers than that.
fn fewer(alloc: Global, arguments: &Arguments) -> Result<Value, Refusal> {
    let bytes = arguments.bytes(alloc, 0)?;
    let reader = PositionReader::open(&bytes)?;
    Ok(flag(reader.num_positions() < u128::from(arguments.small_number(1)?)))
}

/// Whether the last number, where there is one and there are no more than a million, is below 2^31.
fn last_is_small(alloc: Global, arguments: &Arguments) -> Result<Value, Refusal> {
    let bytes = arguments.bytes(alloc, 0)?;
    let mut reader = PositionReader::open(&bytes)?;
    let mut last = [0];
    let count = reader.num_positions();
    if 0 < count && count < 1_000_000 {
        reader.read((count - 1) as u64, &mut last);
    }
    Ok(flag(last[0] < 0x8000_0000))
}
