//! Files, written record by record.

use case_lines::{Arguments, Refusal, bytes_of_digits, hex, number, pair};
use common::{AliveBitSet, Device, MemoryDevice};
use definitions::Fault;
use index_file::{RecordFile, SegmentsBodyWriter, finish_frame, put_first_body, start_frame};
use schema::Schema;
use serde_json::Value;
use settings::Settings;
use std::alloc::Global;

/// The offset of the closed gate of a file after each of its records, and its bytes. A body is `[PARTS, SETS]`, a part
/// the index of a kept segment or the digits of a new one, and a set a number of documents and which of them are dead.
pub(crate) fn file(alloc: Global, arguments: &Arguments) -> Result<Value, Refusal> {
    let first = first_frame(alloc, arguments.value(0)?)?;
    let mut file = match RecordFile::create(alloc, MemoryDevice::new(alloc), &first) {
        Ok(file) => file,
        Err((fault, _)) => return Err(Refusal::Fault(fault)),
    };
    let mut gates = Vec::new(alloc);
    gates.push(number(file.gate as u64))?;
    for body in arguments.list(1)? {
        file.append(&frame_of(alloc, body)?)?;
        gates.push(number(file.gate as u64))?;
    }
    let mut device = file.into_device();
    let bytes = device.read(alloc)?;
    Ok(pair(alloc, Value::Array(gates), hex(alloc, &bytes)?)?)
}

/// The frame of the first record: the schema and the settings of an object.
fn first_frame(alloc: Global, made: &Value) -> Result<Vec<u8>, Refusal> {
    let schema = Schema::from_json_value(alloc, made.get("schema").ok_or(Refusal::NotAsked)?)?;
    let settings = made.get("settings").ok_or(Refusal::NotAsked)?;
    let settings = Settings::from_json_value(alloc, &schema, settings)?;
    let mut frame = start_frame(alloc)?;
    put_first_body(alloc, &mut frame, &schema, &settings)?;
    finish_frame(&mut frame)?;
    Ok(frame)
}

/// The frame of a later record.
fn frame_of(alloc: Global, body: &Value) -> Result<Vec<u8>, Refusal> {
    let parts = list_at(body, 0)?;
    let sets = alive_sets(alloc, list_at(body, 1)?)?;
    let num_segments = u32::try_from(parts.len()).ok().ok_or(Refusal::NotAsked)?;
    let mut body = SegmentsBodyWriter::begin(alloc, num_segments)?;
    for part in parts {
        put_part(alloc, &mut body, part)?;
    }
    body.put_sets(&sets)?;
    Ok(body.finish()?)
}

/// Appends a part to a body.
fn put_part(alloc: Global, body: &mut SegmentsBodyWriter, part: &Value) -> Result<(), Refusal> {
    match part.as_u64() {
        Some(index) => body.put_kept(u32::try_from(index).ok().ok_or(Refusal::NotAsked)?)?,
        None => {
            body.put_fresh(&bytes_of_digits(alloc, part)?)?;
        }
    }
    Ok(())
}

/// The list at an index of a list.
fn list_at(list: &Value, index: usize) -> Result<&Vec<Value>, Refusal> {
    let list = list.as_array().ok_or(Refusal::NotAsked)?;
    let item = list.get(index).ok_or(Refusal::NotAsked)?;
    item.as_array().ok_or(Refusal::NotAsked)
}

/// Alive sets, each of a number of documents without the dead.
fn alive_sets(alloc: Global, list: &[Value]) -> Result<Vec<AliveBitSet>, Refusal> {
    let mut sets = Vec::new(alloc);
    for value in list {
        let num_docs = value
            .get(0)
            .and_then(Value::as_u64)
            .ok_or(Refusal::NotAsked)?;
        let num_docs = u32::try_from(num_docs).ok().ok_or(Refusal::NotAsked)?;
        let mut set = AliveBitSet::for_max_doc(alloc, num_docs)?;
        kill_all(&mut set, list_at(value, 1)?)?;
        sets.push(set)?;
    }
    Ok(sets)
}

/// Lets documents be dead.
fn kill_all(set: &mut AliveBitSet, dead: &[Value]) -> Result<(), Refusal> {
    for doc in dead {
        let doc = doc.as_u64().ok_or(Refusal::NotAsked)?;
        if doc >= set.len() as u64 {
            return Err(Refusal::NotAsked);
        }
        set.kill(doc as u32);
    }
    Ok(())
}
