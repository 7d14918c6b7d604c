//! The run.

use crate::seeded_analyzer::Seeded;
use common::{Analyzer, FileDevice, RunFault};
use serve_lines::Service;
use std::fs;
use std::io::{self, BufReader, BufWriter};
use std::os::unix::fs::MetadataExt;

/// Bytes that are read, and written, at a time.
const BUFFER_LEN: usize = 65536;

/// A path by which the system tells the file that standard output goes into.
const OUTPUT: &str = "/proc/self/fd/1";

/// Answers the lines of standard input on standard output, over the index of the file at `path`, which is made where it
/// is absent; its texts are cut by `analyzer`. `None` where the file can't be opened or is that of the output, or where
/// no memory is found.
pub fn run<A: Analyzer + Drop>(
    rt: &HostRuntime,
    path: &str,
    analyzer: A,
) -> Option<Result<(), RunFault>> {
    let device = open_device(rt, path)?;
    let alloc = rt.alloc();
    let mut reader = BufReader::with_capacity(alloc, BUFFER_LEN, rt.reader()).ok()?;
    let mut writer = BufWriter::with_capacity(alloc, BUFFER_LEN, io::writer(rt)).ok()?;
    let analyzer = Seeded::draw(rt, analyzer);
    let outcome = index::run(alloc, &mut reader, &mut writer, device, analyzer);
    if matches!(outcome, Err(RunFault::WriteFault)) {
        // Nothing is written behind a reply that couldn't be: what is left in the buffer is dropped.
        let _ = writer.into_parts();
    }
    Some(outcome)
}

/// Answers the lines of standard input by `service` on standard output; `None` where no memory is found.
pub fn run_service<S: Service>(rt: &HostRuntime, service: &mut S) -> Option<Result<(), RunFault>> {
    let alloc = rt.alloc();
    let mut reader = BufReader::with_capacity(alloc, BUFFER_LEN, rt.reader()).ok()?;
    let mut writer = BufWriter::with_capacity(alloc, BUFFER_LEN, io::writer(rt)).ok()?;
    let outcome = serve_lines::run(alloc, &mut reader, &mut writer, service);
    if matches!(outcome, Err(RunFault::WriteFault)) {
        let _ = writer.into_parts();
    }
    Some(outcome)
}

/// Opens the device over the file at `path`, which is made where it is absent; `None` where it can't be opened, or where
/// replies would go into it.
pub fn open_device(rt: &HostRuntime, path: &str) -> Option<FileDevice> {
    if is_output(rt, path) {
        return None;
    }
    FileDevice::open(rt, path).ok()
}

/// Whether standard output goes into the file at `path`.
fn is_output(rt: &HostRuntime, path: &str) -> bool {
    match (fs::metadata(rt, path), fs::metadata(rt, OUTPUT)) {
        (Ok(file), Ok(output)) => file.dev() == output.dev() && file.ino() == output.ino(),
        _ => false,
    }
}
