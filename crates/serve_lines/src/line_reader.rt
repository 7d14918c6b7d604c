//! The reading of a line, one look at the reader's buffer at a time.

ghost use Rattle.std.specs.Prelude.{◌≡◌, ◌<◌, OnOk, OnErr, IfErr, IfOk};
ghost use Rattle.std.specs.Io.KnownBytes.{Keeps};
ghost use Rattle.common.specs.declared.run_fault.RunFault.TheVariants as run_faults;
ghost use Rattle.serve_lines.specs.Reading.{MovesChunk, TakesLine};

use crate::RunFault;
use crate::line_buffer::LineBuffer;
use memchr::memchr;
use std::io;
use std::io::{BufRead, ErrorKind, Write};

/// What one look at the reader took.
#[derive(Clone, Copy, Debug, PartialEq, Eq)]
pub(crate) enum Chunk {
    /// A part of the line, maybe empty.
    Part,
    /// The rest of the line, and its newline.
    Rest,
    /// Nothing, because the input has ended.
    End,
}

// Takes what the reader shows, up to the end of the line.
fn take_chunk<R: BufRead>(reader: &mut R, line: &mut LineBuffer) -> io::Result<Chunk>
    ensures ok { IfOk result (λ chunk.
        MovesChunk chunk (R.remaining reader.old) (R.remaining reader.new) line.old line.new) }
    ensures err_reader { OnErr result (Keeps (R.remaining reader.old) (R.remaining reader.new)) }
    ensures err_line { OnErr result (line.new ≡ line.old) }
{
    let shown = reader.fill_buf()?;
    if shown.is_empty() {
        return Ok(Chunk::End);
    }
    match memchr(b'\n', shown) {
        Some(end) => {
            line.add(&shown[..end]);
            line.may_wait = end + 1 == shown.len();
            reader.consume(end + 1);
            Ok(Chunk::Rest)
        }
        None => {
            let len = shown.len();
            line.add(shown);
            line.may_wait = true;
            reader.consume(len);
            Ok(Chunk::Part)
        }
    }
}

// Like `take_chunk`, but a read that a signal interrupts takes an empty part.
fn look<R: BufRead>(reader: &mut R, line: &mut LineBuffer) -> Result<Chunk, RunFault>
    ensures ok { IfOk result (λ chunk.
        MovesChunk chunk (R.remaining reader.old) (R.remaining reader.new) line.old line.new) }
    ensures fault { IfErr result (λ fault. fault ≡ run_faults.ReadFault) }
{
    match take_chunk(reader, line) {
        Ok(chunk) => Ok(chunk),
        Err(error) if error.kind() == ErrorKind::Interrupted => Ok(Chunk::Part),
        Err(_) => Err(RunFault::ReadFault),
    }
}

/// Flushes `writer`.
pub(crate) fn flush<W: Write>(writer: &mut W) -> Result<(), RunFault>
    ensures writer { Keeps (W.contents writer.old) (W.contents writer.new) }
    ensures fault { IfErr result (λ fault. fault ≡ run_faults.WriteFault) }
{
    if writer.flush().is_err() {
        return Err(RunFault::WriteFault);
    }
    Ok(())
}

// Takes the next chunk. Flushes `writer` first if the reader may wait.
fn next_chunk<R: BufRead, W: Write>(
    reader: &mut R,
    writer: &mut W,
    line: &mut LineBuffer,
) -> Result<Chunk, RunFault>
    ensures ok { IfOk result (λ chunk.
        MovesChunk chunk (R.remaining reader.old) (R.remaining reader.new) line.old line.new) }
    ensures writer { Keeps (W.contents writer.old) (W.contents writer.new) }
{
    if line.may_wait {
        flush(writer)?;
    }
    look(reader, line)
}

/// Reads the next line into `line`, and returns whether there was one. Each look at the reader is one of the `turns`;
/// `ReadFault` if none is left.
pub(crate) fn read_line<R: BufRead, W: Write>(
    reader: &mut R,
    writer: &mut W,
    line: &mut LineBuffer,
    turns: &mut u64,
) -> Result<bool, RunFault>
    ensures ok { IfOk result (λ found.
        TakesLine found line.new (R.remaining reader.old) (R.remaining reader.new)) }
    ensures turns { OnOk result (turns.new < turns.old) }
    ensures writer { Keeps (W.contents writer.old) (W.contents writer.new) }
{
    line.clear();
    while *turns > 0 {
        *turns -= 1;
        match next_chunk(reader, writer, line)? {
            Chunk::Part => {}
            Chunk::Rest => return Ok(true),
            Chunk::End => return Ok(!line.is_empty()),
        }
    }
    Err(RunFault::ReadFault)
}
