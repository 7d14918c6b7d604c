//! The run over the lines of an input.

ghost use Rattle.std.specs.Prelude.{◌≡◌, ◌⊎◌, ℕ, ◌<◌, ◌≤◌, ◌^◌, List, OnErr, OnOk, IfErr, IfOk, IfSome, length, take};
ghost use Rattle.std.specs.Io.KnownBytes.{Appends, Keeps};
ghost use Rattle.common.specs.declared.run_fault.RunFault.TheVariants as run_faults;
ghost use Rattle.definitions.specs.Lines.{lines_of};
ghost use Rattle.serve_lines.specs.Reading.{Holds};
ghost use Rattle.definitions.specs.Replying.{output_line};
ghost use Rattle.serve_lines.specs.Serving.{AppendsPart, ServesAll, ServesAtMost, ServesFirst, ServesLine, WritesAnswer, WritesPart};

use crate::line_buffer::LineBuffer;
use crate::line_reader::{flush, read_line};
use crate::{RunFault, Service};
use std::alloc::Global;
use std::io::{BufRead, ErrorKind, Write};

/// The most looks at its reader that a run takes.
const MOST_TURNS: u64 = 1 << 48;

/// Answers each line of the input in turn, until the input ends. Flushes `writer` before a read that may wait. Of a
/// line no more is kept than a line may have.
pub fn run<R: BufRead, W: Write, S: Service>(
    alloc: Global,
    reader: &mut R,
    writer: &mut W,
    service: &mut S,
) -> Result<(), RunFault>
    // Where the reader's bytes are known, its lines are answered in turn, each by the service that the lines before
    // left; where a read or a write fails, the first of them, of which the last may be unwritten.
    ensures served { OnOk result (IfSome (R.remaining reader.old) (λ input.
        ServesAll S.replies service.old service.new (lines_of input) (W.contents writer.old) (W.contents writer.new))) }
    ensures left { OnErr result (IfSome (R.remaining reader.old) (λ input.
        ServesFirst S.replies service.old service.new (lines_of input) (W.contents writer.old)
        (W.contents writer.new))) }
{
    run_within(alloc, reader, writer, service, MOST_TURNS)
}

/// Like `run`, but with at most `most_turns` looks at the reader; `ReadFault` if they don't suffice. They are those of
/// `run`, or the few of its test, so that `run` can't hand on another number.
pub fn run_within<R: BufRead, W: Write, S: Service>(
    alloc: Global,
    reader: &mut R,
    writer: &mut W,
    service: &mut S,
    most_turns: u64,
) -> Result<(), RunFault>
    requires { (most_turns < 2 ^ 8) ⊎ (most_turns ≡ 2 ^ 48) }
    ensures served { OnOk result (IfSome (R.remaining reader.old) (λ input.
        ServesAll S.replies service.old service.new (lines_of input) (W.contents writer.old) (W.contents writer.new))) }
    ensures left { OnErr result (IfSome (R.remaining reader.old) (λ input.
        ServesFirst S.replies service.old service.new (lines_of input) (W.contents writer.old)
        (W.contents writer.new))) }
{
    let mut line = LineBuffer::new(alloc);
    let mut turns = most_turns;
    while serve_line(reader, writer, service, &mut line, &mut turns)? {}
    flush(writer)?;
    Ok(())
}

// Reads the next line and answers it; returns false if there is none.
fn serve_line<R: BufRead, W: Write, S: Service>(
    reader: &mut R,
    writer: &mut W,
    service: &mut S,
    line: &mut LineBuffer,
    turns: &mut u64,
) -> Result<bool, RunFault>
    ensures turns { OnOk result (turns.new < turns.old) }
    ensures served { IfOk result (λ more.
        ServesLine S.replies service.old service.new more (R.remaining reader.old) (R.remaining reader.new)
        (W.contents writer.old) (W.contents writer.new)) }
    ensures left { OnErr result (IfSome (R.remaining reader.old) (λ input.
        ServesAtMost S.replies service.old service.new (lines_of input) (W.contents writer.old)
        (W.contents writer.new))) }
{
    if !read_line(reader, writer, line, turns)? {
        return Ok(false);
    }
    answer_line(writer, service, line)?;
    Ok(true)
}

// Writes the answer to `line`.
fn answer_line<W: Write, S: Service>(
    writer: &mut W,
    service: &mut S,
    line: &LineBuffer,
) -> Result<(), RunFault>
    ensures fault { IfErr result (λ fault. fault ≡ run_faults.WriteFault) }
    ensures answered { (seen : List ℕ) → Holds line.now seen
        → OnOk result (WritesAnswer S.replies service.old service.new seen (W.contents writer.old)
        (W.contents writer.new)) }
    ensures part { (seen : List ℕ) → Holds line.now seen
        → OnErr result (WritesPart S.replies service.old service.new seen (W.contents writer.old)
        (W.contents writer.new)) }
{
    match line.text() {
        Ok(text) => match service.reply(text) {
            Ok(reply) => tell(writer, &reply),
            Err(fault) => tell(writer, fault.reply()),
        },
        Err(fault) => tell(writer, fault.reply()),
    }
}

// Writes `reply` and its newline.
fn tell<W: Write>(writer: &mut W, reply: &str) -> Result<(), RunFault>
    ensures written { OnOk result
        (Appends (W.contents writer.old) (W.contents writer.new) (output_line reply.now)) }
    ensures part { OnErr result
        (AppendsPart (W.contents writer.old) (W.contents writer.new) (output_line reply.now)) }
    ensures fault { IfErr result (λ fault. fault ≡ run_faults.WriteFault) }
{
    let newline = "\n";
    match write_bytes(writer, reply.as_bytes()) {
        Ok(()) => write_bytes(writer, newline.as_bytes()),
        Err(fault) => Err(fault),
    }
}

// Writes all of `bytes`. The standard library's `write_all` doesn't say what was written before an error.
fn write_bytes<W: Write>(writer: &mut W, bytes: &[u8]) -> Result<(), RunFault>
    ensures written { OnOk result (Appends (W.contents writer.old) (W.contents writer.new) bytes.now) }
    ensures part { OnErr result (AppendsPart (W.contents writer.old) (W.contents writer.new) bytes.now) }
    ensures fault { IfErr result (λ fault. fault ≡ run_faults.WriteFault) }
{
    let mut rest = bytes;
    for _ in 0..u64::MAX {
        if rest.is_empty() {
            return Ok(());
        }
        match write_some(writer, rest) {
            Ok(len) => rest = &rest[len..],
            Err(fault) => return Err(fault),
        }
    }
    Err(RunFault::WriteFault)
}

// Writes a front of `bytes`, and returns its length: 0 where a signal interrupts the write.
fn write_some<W: Write>(writer: &mut W, bytes: &[u8]) -> Result<usize, RunFault>
    ensures within { IfOk result (λ len. len ≤ length bytes.now) }
    ensures written { IfOk result (λ len.
        Appends (W.contents writer.old) (W.contents writer.new) (take len bytes.now)) }
    ensures unwritten { OnErr result (Keeps (W.contents writer.old) (W.contents writer.new)) }
    ensures fault { IfErr result (λ fault. fault ≡ run_faults.WriteFault) }
{
    match writer.write(bytes) {
        Ok(0) => Err(RunFault::WriteFault),
        Ok(len) => Ok(len),
        Err(error) if error.kind() == ErrorKind::Interrupted => Ok(0),
        Err(_) => Err(RunFault::WriteFault),
    }
}
