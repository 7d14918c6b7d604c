//! What no clause says: that a run goes through, and what it does where its reader or writer fails.

ghost use Rattle.std.specs.Prelude.{◌≡◌, ◌==◌, ◌%◌, ◌+◌, ◌-◌, ◌^◌, ◌++◌, codes, if◌then◌else◌, IfOk, IsErrOf, OnErr, OnOk};
ghost use Rattle.std.specs.Cow.{cow_str_bytes};
ghost use Rattle.definitions.specs.Disk.{Rose};
ghost use Rattle.definitions.specs.declared.fault.Fault.TheVariants as faults;

use definitions::Fault;
use serve_lines::{RunFault, Service, run, run_within};
use std::alloc::Global;
use std::borrow::CowStr;
use std::cell::Cell;
use std::io;
use std::io::{BufRead, BufReader, ErrorKind, Read, Write};
use std::test::Fail;

// Echoes each line behind a mark that alternates, and fails at the line `fail`.
#[derive(Drop)]
struct Echo {
    alloc: Global,
    answered: u64,
    failures: u64,
}

impl Service for Echo {
    ghost replies = { λ old new line result.
        IfOk result (λ text.
        cow_str_bytes text ≡ (if old.answered % 2 == 0 then codes "+" else codes "-") ++ line)
        × OnOk result (new.answered ≡ old.answered + 1) × OnErr result (new.answered ≡ old.answered)
        × (IsErrOf result faults.Limit → old.answered ≡ 2 ^ 64 - 1)
        × (IsErrOf result faults.Device → Rose old.failures new.failures) };

    fn reply(&mut self, line: &str) -> Result<CowStr<'static>, Fault> {
        if line == "fail" {
            self.failures = self.failures.saturating_add(1);
            return Err(Fault::Device);
        }
        let mark = if self.answered % 2 == 0 { "+" } else { "-" };
        let mut text = String::from_str(self.alloc, mark)?;
        text.push_str(line)?;
        self.answered = self.answered.checked_add(1).ok_or(Fault::Limit)?;
        Ok(CowStr::Owned(text))
    }
}

// Gives at most three bytes a read; every second read is interrupted, and the last one fails.
#[derive(Drop)]
struct FailingReader {
    bytes: &'static [u8],
    reads_left: u8,
    is_interrupted: bool,
}

impl Read for FailingReader {
    fn read(&mut self, buf: &mut [u8]) -> io::Result<usize> {
        if self.reads_left == 0 {
            return Err(ErrorKind::Other.into());
        }
        self.is_interrupted = !self.is_interrupted;
        if self.is_interrupted {
            return Err(ErrorKind::Interrupted.into());
        }
        self.reads_left -= 1;
        let len = self.bytes.len().min(buf.len()).min(3);
        buf[..len].copy_from_slice(&self.bytes[..len]);
        self.bytes = &self.bytes[len..];
        Ok(len)
    }
}

// Takes some writes and some flushes, and then fails.
#[derive(Drop)]
struct FailingWriter {
    writes_left: u8,
    flushes_left: u8,
}

impl Write for FailingWriter {
    fn write(&mut self, buf: &[u8]) -> io::Result<usize> {
        if self.writes_left == 0 {
            return Err(ErrorKind::Other.into());
        }
        self.writes_left -= 1;
        Ok(buf.len())
    }

    fn flush(&mut self) -> io::Result<()> {
        if self.flushes_left == 0 {
            return Err(ErrorKind::Other.into());
        }
        self.flushes_left -= 1;
        Ok(())
    }
}

// Whether a reply isn't flushed, and whether a read came while that was so.
#[derive(Drop)]
struct Flushing {
    is_due: Cell<bool>,
    is_late: Cell<bool>,
}

// Sends a piece whenever it is read.
#[derive(Drop)]
struct Client<'a> {
    pieces: &'static [&'static [u8]],
    sent: usize,
    flushing: &'a Flushing,
}

impl Read for Client<'_> {
    fn read(&mut self, buf: &mut [u8]) -> io::Result<usize> {
        if self.flushing.is_due.get() {
            self.flushing.is_late.set(true);
        }
        if self.sent >= self.pieces.len() {
            return Ok(0);
        }
        let piece = self.pieces[self.sent];
        self.sent += 1;
        let len = piece.len().min(buf.len());
        buf[..len].copy_from_slice(&piece[..len]);
        Ok(len)
    }
}

#[derive(Drop)]
struct Screen<'a> {
    flushing: &'a Flushing,
}

impl Write for Screen<'_> {
    fn write(&mut self, buf: &[u8]) -> io::Result<usize> {
        self.flushing.is_due.set(true);
        Ok(buf.len())
    }

    fn flush(&mut self) -> io::Result<()> {
        self.flushing.is_due.set(false);
        Ok(())
    }
}

fn make_echo(alloc: Global) -> Echo {
    Echo {
        alloc,
        answered: 0,
        failures: 0,
    }
}

/// What a run over an input writes, if it goes through.
fn written_for(alloc: Global, input: &[u8]) -> Result<Vec<u8>, RunFault> {
    let mut reader = input;
    let mut written = Vec::new(alloc);
    run(alloc, &mut reader, &mut written, &mut make_echo(alloc))?;
    Ok(written)
}

#[test]
fn answers_each_line(rt: HostRuntime) -> Result<(), Fail> {
    let rows: [(&[u8], &[u8]); 8] = [
        (b"", b""),
        (b"\n", b"+\n"),
        (b"a", b"+a\n"),
        (b"a\nb\n", b"+a\n-b\n"),
        (b"a\n\nb", b"+a\n-\n+b\n"),
        (b"a\r\n", b"+a\r\n"),
        (b"a\n\xff\nb\n", b"+a\n{\"error\":\"BadRequest\"}\n-b\n"),
        (b"a\nfail\nb\n", b"+a\n{\"error\":\"Device\"}\n-b\n"),
    ];
    for (input, output) in rows {
        assert!(rt; written_for(rt.alloc(), input)?.as_slice() == output);
    }
    Ok(())
}

/// Whether a line of the greatest length is answered, and one that is a byte longer refused.
fn lines_are_measured(alloc: Global) -> Result<bool, Fail> {
    let mut input = vec![in alloc; b'x'; 16777216]?;
    input.extend_from_slice(b"\na")?;
    let greatest = written_for(alloc, &input)?;
    input.insert(0, b'x')?;
    let longer = written_for(alloc, &input)?;
    Ok(
        greatest.len() == 16777221
            && greatest.ends_with(b"x\n-a\n")
            && longer.as_slice() == b"{\"error\":\"LineTooLong\"}\n+a\n".as_slice(),
    )
}

#[test]
fn measures_lines(rt: HostRuntime) -> Result<(), Fail> {
    assert!(rt; lines_are_measured(rt.alloc())?);
    Ok(())
}

/// Whether a run takes more looks than the 255 that a test of `run_within` may ask for.
fn answers_many_lines(alloc: Global) -> Result<bool, Fail> {
    let input = vec![in alloc; b'\n'; 300]?;
    Ok(written_for(alloc, &input)?.len() == 600)
}

#[test]
fn goes_on_past_many_looks(rt: HostRuntime) -> Result<(), Fail> {
    assert!(rt; answers_many_lines(rt.alloc())?);
    Ok(())
}

/// Whether a run over a reader that fails after some reads ends so, and writes the first replies alone.
fn ends_at_a_read(alloc: Global, reads_left: u8) -> Result<bool, Fail> {
    let failing = FailingReader {
        bytes: b"the first line\nthe second\n\nthe fourth, a longer one\nand the last\n",
        reads_left,
        is_interrupted: false,
    };
    let output = b"+the first line\n-the second\n+\n-the fourth, a longer one\n+and the last\n";
    let mut reader = BufReader::with_capacity(alloc, 8, failing)?;
    let mut written = Vec::new(alloc);
    let ended = run(alloc, &mut reader, &mut written, &mut make_echo(alloc));
    Ok(ended == Err(RunFault::ReadFault) && output.starts_with(written.as_slice()))
}

#[test]
fn ends_where_a_read_fails(rt: HostRuntime) -> Result<(), Fail> {
    for reads_left in 0..20 {
        assert!(rt; ends_at_a_read(rt.alloc(), reads_left)?);
    }
    Ok(())
}

/// How a run of four lines ends over a writer that fails after some writes, or some flushes. It writes twice for a reply,
/// and flushes before it looks for the first line and for the end, and at the end.
fn ended_over(alloc: Global, writes_left: u8, flushes_left: u8) -> Result<(), RunFault> {
    let mut reader = "a\nb\nc\nd\n".as_bytes();
    let mut writer = FailingWriter {
        writes_left,
        flushes_left,
    };
    run(alloc, &mut reader, &mut writer, &mut make_echo(alloc))
}

#[test]
fn ends_where_a_write_fails(rt: HostRuntime) {
    for writes_left in 0..8 {
        assert!(rt; ended_over(rt.alloc(), writes_left, 3) == Err(RunFault::WriteFault));
    }
}

/// Whether a run ends where its first, second or third flush fails, and goes through where none does.
fn ends_at_flushes(alloc: Global) -> bool {
    for flushes_left in 0..3 {
        if ended_over(alloc, 8, flushes_left) != Err(RunFault::WriteFault) {
            return false;
        }
    }
    ended_over(alloc, 8, 3) == Ok(())
}

#[test]
fn ends_where_a_flush_fails(rt: HostRuntime) {
    assert!(rt; ends_at_flushes(rt.alloc()));
}

fn serve_client(alloc: Global, flushing: &Flushing) -> Result<(), Fail> {
    let client = Client {
        pieces: &[b"a\n", b"b\nc\nd", b"e\n", b"f"],
        sent: 0,
        flushing,
    };
    let mut reader = BufReader::new(alloc, client)?;
    let mut writer = Screen { flushing };
    run(alloc, &mut reader, &mut writer, &mut make_echo(alloc))?;
    Ok(())
}

/// Whether what was written is flushed before each read that may wait, and at the end.
fn is_flushed_in_time(alloc: Global) -> Result<bool, Fail> {
    let flushing = Flushing {
        is_due: Cell::new(false),
        is_late: Cell::new(false),
    };
    serve_client(alloc, &flushing)?;
    Ok(!flushing.is_late.get() && !flushing.is_due.get())
}

#[test]
fn flushes_before_it_waits(rt: HostRuntime) -> Result<(), Fail> {
    assert!(rt; is_flushed_in_time(rt.alloc())?);
    Ok(())
}

// How a run ends that may look at its reader so often, and what it writes; it takes six looks to read the line, and two
// more to see the end.
fn serve_within(alloc: Global, turns: u8) -> Result<(Result<(), RunFault>, usize), Fail> {
    let failing = FailingReader {
        bytes: b"a line\n",
        reads_left: 9,
        is_interrupted: false,
    };
    let mut reader = BufReader::new(alloc, failing)?;
    let mut written = Vec::new(alloc);
    let ended = run_within(
        alloc,
        &mut reader,
        &mut written,
        &mut make_echo(alloc),
        u64::from(turns),
    );
    Ok((ended, written.len()))
}

#[test]
fn counts_its_turns(rt: HostRuntime) -> Result<(), Fail> {
    for (turns, ended, written) in [
        (0, Err(RunFault::ReadFault), 0),
        (5, Err(RunFault::ReadFault), 0),
        (6, Err(RunFault::ReadFault), 8),
        (7, Err(RunFault::ReadFault), 8),
        (8, Ok(()), 8),
    ] {
        assert!(rt; serve_within(rt.alloc(), turns)? == (ended, written));
    }
    Ok(())
}
