//! Files of records on a device in memory.

use case_lines::{Arguments, Refusal, bytes_of_digits, hex, number, pair, text};
use common::{Device, MemoryDevice};
use definitions::Fault;
use index_file::{RecordFile, finish_frame, start_frame};
use serde_json::Value;
use std::alloc::Global;

/// What an operation on files of records answers.
pub(crate) fn answer(
    alloc: Global,
    operation: &str,
    arguments: &Arguments,
) -> Result<Value, Refusal> {
    match operation {
        "file" => file(alloc, arguments),
        "created-over" => created_over(alloc, arguments),
        _ => Err(Refusal::NotAsked),
    }
}

/// The bytes of a body, as hexadecimal digits, in its frame.
fn framed(alloc: Global, body: &Value) -> Result<Vec<u8>, Refusal> {
    let mut frame = start_frame(alloc)?;
    frame.extend_from_slice(&bytes_of_digits(alloc, body)?)?;
    finish_frame(&mut frame)?;
    Ok(frame)
}

/// The file, or why there is none.
fn opened(
    outcome: Result<RecordFile<MemoryDevice>, (Fault, MemoryDevice)>,
) -> Result<RecordFile<MemoryDevice>, Refusal> {
    match outcome {
        Ok(file) => Ok(file),
        Err((fault, _)) => Err(Refusal::Fault(fault)),
    }
}

/// The file of bodies, appended one by one: the offset of its closed gate after each, and its bytes.
fn file(alloc: Global, arguments: &Arguments) -> Result<Value, Refusal> {
    let (first, rest) = arguments.list(0)?.split_first().ok_or(Refusal::NotAsked)?;
    let device = MemoryDevice::new(alloc);
    let mut file = opened(RecordFile::create(alloc, device, &framed(alloc, first)?))?;
    let mut gates = Vec::new(alloc);
    gates.push(number(file.gate as u64))?;
    for body in rest {
        file.append(&framed(alloc, body)?)?;
        gates.push(number(file.gate as u64))?;
    }
    let mut device = file.into_device();
    Ok(pair(
        alloc,
        Value::Array(gates),
        hex(alloc, &device.read(alloc)?)?,
    )?)
}

/// A device that holds these bytes.
fn device_of(alloc: Global, bytes: &[u8]) -> Result<MemoryDevice, Refusal> {
    let mut device = MemoryDevice::new(alloc);
    device.cut(0)?;
    device.write_at(0, bytes)?;
    device.sync()?;
    Ok(device)
}

/// Why no file is created on a device that holds bytes, and what it holds then.
fn created_over(alloc: Global, arguments: &Arguments) -> Result<Value, Refusal> {
    let device = device_of(alloc, &arguments.bytes(alloc, 0)?)?;
    let frame = framed(alloc, arguments.value(1)?)?;
    let (outcome, mut device) = match RecordFile::create(alloc, device, &frame) {
        Ok(file) => ("created", file.into_device()),
        Err((fault, device)) => (fault.name(), device),
    };
    Ok(pair(
        alloc,
        text(alloc, outcome)?,
        hex(alloc, &device.read(alloc)?)?,
    )?)
}
