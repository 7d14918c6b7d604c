//! Sessions whose reader or writer fails at each of its calls: which lines were answered, what the file then has, and
//! how the same session answers the lines that are left.

use crate::files::{Files, written};
use common::{Device, MemoryDevice, RawAndDefault, RunFault};
use definitions::Fault;
use index::{Session, run_session};
use std::alloc::Global;
use std::io;
use std::io::{BufRead, BufReader, ErrorKind, Read, Write};
use std::test::Fail;

// What makes the files of `written`: a create, and two commits of a document each.
const LINES: &str =
    r#"{"op":"create","schema":[{"name":"title","type":"text","options":{"stored":true,"indexing":{"record":"position"}}},{"name":"year","type":"u64","options":{"stored":true,"indexed":true}}]}
{"op":"add","doc":{"title":"the old sea","year":1952}}
{"op":"commit"}
{"op":"add","doc":{"title":"sea sea wind","year":1987}}
{"op":"commit"}
"#;

// How many lines these are.
const ALL_LINES: usize = 5;

// The reply to each of the lines, and its newline.
const REPLY: &str = "{\"ok\":true}\n";

// How many bytes a read gives.
const PIECE: usize = 16;

// Gives a piece of the bytes a read, a number of times, and then fails.
#[derive(Drop)]
struct FailingReader {
    bytes: &'static [u8],
    reads_left: usize,
}

impl Read for FailingReader {
    fn read(&mut self, buf: &mut [u8]) -> io::Result<usize> {
        if self.reads_left == 0 {
            return Err(ErrorKind::Other.into());
        }
        self.reads_left -= 1;
        let len = self.bytes.len().min(buf.len()).min(PIECE);
        buf[..len].copy_from_slice(&self.bytes[..len]);
        self.bytes = &self.bytes[len..];
        Ok(len)
    }
}

// Takes some writes and some flushes, and then fails.
#[derive(Clone, Copy)]
struct FailingWriter {
    writes_left: usize,
    flushes_left: usize,
}

impl Write for FailingWriter {
    fn write(&mut self, buf: &[u8]) -> io::Result<usize> {
        if self.writes_left == 0 {
            return Err(ErrorKind::Other.into());
        }
        self.writes_left -= 1;
        Ok(buf.len())
    }

    fn flush(&mut self) -> io::Result<()> {
        if self.flushes_left == 0 {
            return Err(ErrorKind::Other.into());
        }
        self.flushes_left -= 1;
        Ok(())
    }
}

// How a session over a device without a byte ends, and what the device then holds.
fn served<R: BufRead, W: Write>(
    alloc: Global,
    reader: &mut R,
    writer: &mut W,
) -> Result<(Result<(), RunFault>, Vec<u8>), Fault> {
    let mut session = Session::new(alloc, MemoryDevice::new(alloc), RawAndDefault);
    let ended = run_session(reader, writer, &mut session);
    let (mut device, _analyzer) = session.into_device();
    Ok((ended, device.read(alloc)?))
}

// The lines behind the first `lines` ones.
fn lines_behind(lines: usize) -> &'static str {
    let mut behind = LINES;
    for _ in 0..lines {
        behind = match behind.split_once('\n') {
            Some((_line, rest)) => rest,
            None => "",
        };
    }
    behind
}

// Whether a session whose reader or writer fails, and which has done its first `lines` lines then, answers those that are
// left, and leaves the file of one that never failed.
fn goes_on<R: BufRead, W: Write>(
    alloc: Global,
    files: &Files,
    reader: &mut R,
    writer: &mut W,
    lines: usize,
) -> Result<bool, Fault> {
    let mut session = Session::new(alloc, MemoryDevice::new(alloc), RawAndDefault);
    let failed = run_session(reader, writer, &mut session);
    let mut output = Vec::new(alloc);
    let mut left = lines_behind(lines).as_bytes();
    let ended = run_session(&mut left, &mut output, &mut session);
    let (mut device, _analyzer) = session.into_device();
    let replies = replies_to(alloc, ALL_LINES.saturating_sub(lines))?;
    Ok(
        failed.is_err()
            && ended == Ok(())
            && output.as_slice() == replies.as_bytes()
            && device.read(alloc)?.as_slice() == files.twice.as_slice(),
    )
}

// What the file has after `lines` lines.
fn file_after(lines: usize, files: &Files) -> &[u8] {
    match lines {
        0 => "".as_bytes(),
        1 | 2 => files.made.as_slice(),
        3 | 4 => files.once.as_slice(),
        _ => files.twice.as_slice(),
    }
}

// How many lines end in the first `len` bytes of the input.
fn lines_within(len: usize) -> usize {
    let bytes = LINES.as_bytes();
    let mut lines: usize = 0;
    for byte in bytes.get(..len).unwrap_or(bytes) {
        if *byte == b'\n' {
            lines = lines.saturating_add(1);
        }
    }
    lines
}

// The replies to the first `lines` lines.
fn replies_to(alloc: Global, lines: usize) -> Result<String, Fault> {
    let mut replies = String::new(alloc);
    for _ in 0..lines {
        replies.push_str(REPLY)?;
    }
    Ok(replies)
}

// A reader of the lines that fails after `reads` reads.
fn failing_reader(alloc: Global, reads: usize) -> Result<BufReader<FailingReader>, Fail> {
    let failing = FailingReader {
        bytes: LINES.as_bytes(),
        reads_left: reads,
    };
    Ok(BufReader::with_capacity(alloc, PIECE, failing)?)
}

// Whether a session over such a reader has answered the lines that it got whole alone.
fn ends_at_a_read(alloc: Global, files: &Files, reads: usize) -> Result<bool, Fail> {
    let mut reader = failing_reader(alloc, reads)?;
    let mut output = Vec::new(alloc);
    let (ended, file) = served(alloc, &mut reader, &mut output)?;
    let lines = lines_within(reads.saturating_mul(PIECE));
    let replies = replies_to(alloc, lines)?;
    Ok(
        ended == Err(RunFault::ReadFault)
            && output.as_slice() == replies.as_bytes()
            && file.as_slice() == file_after(lines, files),
    )
}

// Whether a session goes on behind such a reader.
fn goes_on_at_a_read(alloc: Global, files: &Files, reads: usize) -> Result<bool, Fail> {
    let mut reader = failing_reader(alloc, reads)?;
    let lines = lines_within(reads.saturating_mul(PIECE));
    Ok(goes_on(alloc, files, &mut reader, &mut Vec::new(alloc), lines)?)
}

// Whether these hold of each read up to the one that would see the end.
fn ends_at_reads(alloc: Global) -> Result<bool, Fail> {
    let files = written(alloc)?;
    for reads in 0..=LINES.len().div_ceil(PIECE) {
        if !ends_at_a_read(alloc, &files, reads)? || !goes_on_at_a_read(alloc, &files, reads)? {
            return Ok(false);
        }
    }
    Ok(true)
}

// Whether a session over a writer that fails after some writes, or some flushes, ends so, has done its lines, and goes on.
fn ends_after(
    alloc: Global,
    files: &Files,
    mut writer: FailingWriter,
    lines: usize,
) -> Result<bool, Fault> {
    let mut again = writer;
    let (ended, file) = served(alloc, &mut LINES.as_bytes(), &mut writer)?;
    Ok(
        ended == Err(RunFault::WriteFault)
            && file.as_slice() == file_after(lines, files)
            && goes_on(alloc, files, &mut LINES.as_bytes(), &mut again, lines)?,
    )
}

// Whether the line whose reply can't be written, in two writes each, is the last that is done.
fn ends_at_writes(alloc: Global) -> Result<bool, Fault> {
    let files = written(alloc)?;
    for writes_left in 0..10 {
        let writer = FailingWriter {
            writes_left,
            flushes_left: 3,
        };
        if !ends_after(alloc, &files, writer, (writes_left / 2).saturating_add(1))? {
            return Ok(false);
        }
    }
    Ok(true)
}

// Whether no line is done where the first flush fails, which is before the first read, and all are where a later one
// does: before the read that would see the end, and at the end.
fn ends_at_flushes(alloc: Global) -> Result<bool, Fault> {
    let files = written(alloc)?;
    for flushes_left in 0..3 {
        let writer = FailingWriter {
            writes_left: 10,
            flushes_left,
        };
        let lines = if flushes_left == 0 { 0 } else { ALL_LINES };
        if !ends_after(alloc, &files, writer, lines)? {
            return Ok(false);
        }
    }
    Ok(true)
}

#[test]
fn reads_that_fail(rt: HostRuntime) -> Result<(), Fail> {
    assert!(rt; ends_at_reads(rt.alloc())?);
    Ok(())
}

#[test]
fn writes_that_fail(rt: HostRuntime) -> Result<(), Fail> {
    let writes = ends_at_writes(rt.alloc())?;
    let flushes = ends_at_flushes(rt.alloc())?;
    assert!(rt; writes && flushes);
    Ok(())
}
