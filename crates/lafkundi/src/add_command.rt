//! `lafkundi add`: adds documents, and takes away those that a line names.

use crate::additions::Additions;
use crate::failure::Failure;
use crate::file_index::open;
use crate::words::{file, text_of};
use clap::{Arg, ArgAction, ArgMatches, Command, value_parser};
use std::alloc::{AllocError, Global};
use std::fs::File;
use std::io::{BufRead, BufReader};

/// The status where a line was refused.
const REFUSED: u8 = 1;

/// The status where the file can't be opened or written, or lines can't be read.
const FAILED: u8 = 2;

/// Bytes that are read at a time.
const BUFFER_LEN: usize = 65536;

const ABOUT: &str = "Adds documents, each a line of JSON, and commits them";

const EXAMPLE: &str = "\
Each line of LINES, or of standard input, is a document, or names what is to be taken away: {\"delete\":TERM} takes away
the documents added so far that have the term {\"field\":NAME,\"value\":V}. A refused line is told with its number and why,
and the rest goes on.

Example:
  echo '{\"id\":\"7\",\"subject\":\"Invoice\",\"body\":\"For the old quay.\"}' | lafkundi add mail.idx --id id

The status is 0; 1 where a line was refused; 2 where the file can't be opened or written, or lines can't be read.";

/// Makes the command line of `add`.
pub(crate) fn command<'a>(alloc: Global) -> Result<Command<'a>, AllocError> {
    let lines = Arg::new(alloc, "lines")
        .value_name("LINES")
        .help("Files of documents, one on a line; standard input where there is none, or `-`")
        .action(ArgAction::Append)
        .num_args(0..);
    let id = Arg::new(alloc, "id").long("id").value_name("FIELD").help(
        "A document takes the place of those that have its value in this field",
    );
    let every = Arg::new(alloc, "commit-every")
        .long("commit-every")
        .value_name("N")
        .help("Commits after each N documents and deletions, and at the end")
        .default_value("100000")
        .value_parser(value_parser!(u64).range(1..));
    Command::new(alloc, "add")
        .about(ABOUT)
        .after_help(EXAMPLE)
        .arg(file(alloc))?
        .arg(lines)?
        .arg(id)?
        .arg(every)
}

/// Adds the lines that are given, and tells how many were added and refused.
pub(crate) fn run(rt: &HostRuntime, given: &ArgMatches<'_>) -> u8 {
    let path = text_of(given, "file");
    match add(rt, path, given) {
        Ok(0) => 0,
        Ok(_refused) => REFUSED,
        Err(failure) => {
            let _ = eprintln!(rt; "lafkundi add: {path}: {failure}");
            FAILED
        }
    }
}

/// Adds the lines that are given; returns how many were refused.
fn add(rt: &HostRuntime, path: &str, given: &ArgMatches<'_>) -> Result<u64, Failure> {
    let sources = open_all(rt, given.get_strs("lines").unwrap_or(&["-"]))?;
    let every = given.get_one::<u64>("commit-every").unwrap_or(u64::MAX);
    let mut additions = Additions::new(path, open(rt, path)?, given.get_str("id"), every)?;
    match add_sources(rt, &mut additions, sources) {
        Ok(()) => additions.end(rt),
        Err(Failure::Unread) => {
            additions.end(rt)?;
            Err(Failure::Unread)
        }
        Err(failure) => {
            additions.tell_lost(rt);
            Err(failure)
        }
    }
}

/// Opens each of `paths`, of which `-` is standard input.
fn open_all<'a>(
    rt: &HostRuntime,
    paths: &[&'a str],
) -> Result<Vec<(&'a str, Option<File>)>, Failure> {
    let mut sources = Vec::with_capacity(rt.alloc(), paths.len())?;
    for path in paths {
        if *path == "-" {
            sources.push(("standard input", None))?;
        } else if let Ok(file) = File::open(rt, path) {
            sources.push((*path, Some(file)))?;
        } else {
            let _ = eprintln!(rt;
                "lafkundi add: {path}: there is no such file, or it can't be read"
            );
            return Err(Failure::NoLines);
        }
    }
    Ok(sources)
}

/// Adds the lines of each of `sources`.
fn add_sources(
    rt: &HostRuntime,
    additions: &mut Additions<'_>,
    sources: Vec<(&str, Option<File>)>,
) -> Result<(), Failure> {
    let alloc = rt.alloc();
    for (source, file) in sources {
        match file {
            Some(file) => {
                let mut lines = BufReader::with_capacity(alloc, BUFFER_LEN, file)?;
                add_lines(rt, additions, source, &mut lines)?;
            }
            None => {
                let mut lines = BufReader::with_capacity(alloc, BUFFER_LEN, rt.reader())?;
                add_lines(rt, additions, source, &mut lines)?;
            }
        }
    }
    Ok(())
}

/// Adds the lines of a reader, which is called `source` where one of them is refused.
fn add_lines<R: BufRead>(
    rt: &HostRuntime,
    additions: &mut Additions<'_>,
    source: &str,
    lines: &mut R,
) -> Result<(), Failure> {
    let mut line = Vec::new(rt.alloc());
    for number in 1..u64::MAX {
        line.clear();
        match lines.read_until(b'\n', &mut line) {
            Ok(0) => break,
            Ok(_len) => additions.take_line(rt, source, number, &line)?,
            Err(_) => {
                let _ = eprintln!(rt; "lafkundi add: {source}: line {number} can't be read");
                return Err(Failure::Unread);
            }
        }
    }
    Ok(())
}
