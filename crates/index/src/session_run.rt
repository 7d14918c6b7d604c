//! The run over the lines of an input, each answered by a session. Its functions aren't beside a struct with a ghost
//! field, since what their contracts cite names the session.

ghost use Rattle.std.specs.Prelude.{IfSome, OnErr, OnOk};
ghost use Rattle.definitions.specs.Lines.{lines_of};
ghost use Rattle.index.specs.Runs.{IsFailedRun, IsRun, IsRunOver};
ghost use Rattle.index.specs.Replied.{IsReplied};

use crate::session::Session;
use common::{Analyzer, Device, RunFault};
use definitions::Fault;
use std::alloc::Global;
use std::borrow::CowStr;
use std::io::{BufRead, Write};

/// Answers the lines of `reader` one by one, until it ends, over a `device` on which no index is open yet.
pub fn run<R: BufRead, W: Write, D: Device + Drop, A: Analyzer + Drop>(
    alloc: Global,
    reader: &mut R,
    writer: &mut W,
    device: D,
    analyzer: A,
) -> Result<(), RunFault>
    // Where the reader's bytes are known, the lines are answered in turn, or the first ones where a read or a write
    // fails. Of an honest device that holds no byte, an index's file, or bytes that are no index or a damaged one, the
    // replies follow from that and from the lines.
    ensures { IfSome (R.remaining reader.old) (λ input.
        IsRunOver D.Device A.Analyzer device analyzer (lines_of input) (W.contents writer.old) (W.contents writer.new)
        result) }
{
    let mut session = Session::new(alloc, device, analyzer);
    run_session(reader, writer, &mut session)
}

/// Answers the lines of `reader` one by one, until it ends.
/// The kind of its fault and the 2^48 looks at the reader are in clauses of private functions of `serve_lines` and in
/// tests: an `Err` may come from any reader, and no relation says which side failed.
pub fn run_session<R: BufRead, W: Write, D: Device + Drop, A: Analyzer + Drop>(
    reader: &mut R,
    writer: &mut W,
    session: &mut Session<D, A>,
) -> Result<(), RunFault>
    // Where the reader's bytes are known, the lines are answered in turn, each by the session that the lines before
    // left. So the definitions' replies are written, up to a fault that stops: `Device` only if the session's device
    // failed, `Limit` only if the session that came to the line meets one by it. The session stands for what comes
    // after all lines, over an honest device also after out of memory, a limit, or a device that failed under a ready
    // index; so the file has what is committed then.
    ensures served { OnOk result (IfSome (R.remaining reader.old) (λ input.
        IsRun session.old session.new (lines_of input) (W.contents writer.old) (W.contents writer.new))) }
    // Where a read or a write fails, the same of the lines that were answered; of the last one's reply an end may be
    // unwritten. So the session can serve another reader and writer.
    ensures left { OnErr result (IfSome (R.remaining reader.old) (λ input.
        IsFailedRun session.old session.new (lines_of input) (W.contents writer.old) (W.contents writer.new))) }
{
    serve_lines::run(session.alloc, reader, writer, session)
}

/// Answers one `line` of JSON, and returns the reply. The errors are `OutOfMemory`, `Limit` and `Device`. `Device`
/// comes only if the device failed; after it an index that was ready is closed, over the file before the line or after
/// it. `Limit` comes only if an add, a merge or a commit meets a limit: of a document's stored values, of a segment or
/// of the file.
pub fn reply<D: Device + Drop, A: Analyzer + Drop>(
    session: &mut Session<D, A>,
    line: &str,
) -> Result<CowStr<'static>, Fault>
    ensures { IsReplied session.old session.new line.now result }
{
    session.answer_line(line)
}
