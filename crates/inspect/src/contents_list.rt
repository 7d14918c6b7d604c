//! The list of what stands in a file.

use crate::contents::{Contents, Opened, contents_of};
use crate::create_line::{MAKING, write_create};
use crate::failure::Failure;
use crate::record_damage::damage_at;
use crate::records::Record;
use crate::sections::section_lengths;
use bytes::Bytes;
use definitions::Fault;
use index_file::{IndexFile, Member, Part, read_segments_body};
use std::alloc::Global;
use std::io::Write;

/// Writes what stands in the file of these `bytes`: the schema and the settings as the line that creates such an index,
/// the records, the segments, and how many bytes no reader needs any more. Of a damaged file it writes what stands
/// before the damage, and is refused.
pub(crate) fn list<W: Write>(alloc: Global, bytes: &Bytes, out: &mut W) -> Result<(), Failure> {
    let Contents { records, opened } = contents_of(alloc, bytes)?;
    let new = list_records(alloc, &records, out)?;
    match opened {
        Opened::Whole(file) => list_rest(&file, bytes.len(), new, out),
        Opened::DamagedAt(gate) => {
            let number = records.len();
            let damage = damage_at(alloc, bytes, number, gate)?;
            Err(Failure::Damage(damage))
        }
    }
}

/// Writes what follows the records of a file of `num_bytes` bytes, whose new segments have `new` bytes: the segments,
/// the closed gate, and how many bytes no reader needs any more.
fn list_rest<W: Write>(
    file: &IndexFile,
    num_bytes: usize,
    new: usize,
    out: &mut W,
) -> Result<(), Failure> {
    let kept = list_segments(&file.members, out)?;
    let replaced = new.saturating_sub(kept);
    let behind = num_bytes.saturating_sub(file.gate).saturating_sub(1);
    writeln!(out, "closed gate at {}", file.gate)?;
    writeln!(
        out,
        "not read any more: {replaced} bytes of segments, {behind} behind the closed gate"
    )?;
    Ok(())
}

/// Writes `records`; of the first one also the line that creates such an index. Returns how many bytes the segments
/// have that are new in one of them.
fn list_records<W: Write>(
    alloc: Global,
    records: &[Record<'_>],
    out: &mut W,
) -> Result<usize, Failure> {
    let mut len: usize = 0;
    for (number, record) in records.iter().enumerate() {
        match record.body {
            [MAKING, making @ ..] => list_making(number, record, making, out)?,
            _ => len = len.saturating_add(list_record(alloc, number, record, out)?),
        }
    }
    Ok(len)
}

/// Writes the first record, whose JSON text is `making`, as the line that creates such an index.
fn list_making<W: Write>(
    number: usize,
    record: &Record<'_>,
    making: &[u8],
    out: &mut W,
) -> Result<(), Failure> {
    let Ok(text) = str::from_utf8(making) else {
        return Err(Failure::Unsound(Fault::Damaged(Some(record.gate as u64))));
    };
    write_create(text, out)?;
    writeln!(
        out,
        "record {number} at {}: {} bytes, schema and settings",
        record.gate,
        record.body.len()
    )?;
    Ok(())
}

/// Writes a record that lists segments, and returns how many bytes its new ones have.
fn list_record<W: Write>(
    alloc: Global,
    number: usize,
    record: &Record<'_>,
    out: &mut W,
) -> Result<usize, Failure> {
    let len = record.body.len();
    let Some(body) = read_segments_body(alloc, record.body)? else {
        return Err(Failure::Unsound(Fault::Damaged(Some(record.gate as u64))));
    };
    let (new, new_len) = new_segments(&body.parts);
    let all = body.parts.len();
    writeln!(
        out,
        "record {number} at {}: {len} bytes, segments: {all}, new ones: {new}",
        record.gate
    )?;
    Ok(new_len)
}

/// Returns how many of `parts` are new segments, and how many bytes these have.
fn new_segments(parts: &[Part<'_>]) -> (usize, usize) {
    let mut new: usize = 0;
    let mut len: usize = 0;
    for part in parts {
        if let Part::Fresh(bytes) = part {
            new = new.saturating_add(1);
            len = len.saturating_add(bytes.len());
        }
    }
    (new, len)
}

/// Writes the segments that searches see, and returns how many bytes they have.
fn list_segments<W: Write>(members: &[Member], out: &mut W) -> Result<usize, Failure> {
    let mut len: usize = 0;
    for (number, member) in members.iter().enumerate() {
        let bytes = member.segment.to_bytes()?;
        let sections = section_lengths(bytes.as_slice())?;
        let living = member.alive.num_alive();
        let docs = member.segment.num_docs();
        writeln!(
            out,
            "segment {number}: documents: {docs}, alive: {living}, bytes: {}",
            bytes.len()
        )?;
        writeln!(out, "    {sections}")?;
        len = len.saturating_add(bytes.len());
    }
    Ok(len)
}
