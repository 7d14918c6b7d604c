//! `lafkundi serve`: answers lines of requests.

use crate::words::{file, text_of};
use ask::TextService;
use clap::{ArgMatches, Command};
use file_run::{Seeded, open_device, run_service};
use index::{RunFault, status_of};
use languages::Languages;
use std::alloc::{AllocError, Global};

/// The status where a run can't begin.
const FAILED: u8 = 2;

const ABOUT: &str = "Answers lines of JSON on standard input, each by a line";

const EXAMPLE: &str = "\
The file is made by a line `create`, and opened by a line `open`. Text fields may name the analyzers `default`, `raw`,
`words18` (words of any script, without case), `plain18` (without accents too) and `english18` (English stems of these).

Example:
  lafkundi serve notes.idx <<'END'
  {\"op\":\"create\",\"schema\":[{\"name\":\"t\",\"type\":\"text\",\"options\":{\"stored\":true,\"indexing\":{\"tokenizer\":\"plain18\"}}}]}
  {\"op\":\"add\",\"doc\":{\"t\":\"Le Café de l’École\"}}
  {\"op\":\"commit\"}
  {\"op\":\"search\",\"k\":10,\"query\":{\"q\":\"term\",\"field\":\"t\",\"value\":\"ecole\"}}
  END

docs/REQUESTS.md has each request and each refusal. The status is 0 at the end of the input, whatever was refused; 1 where
a read or a write fails; 2 where the file can't be opened.";

/// Makes the command line of `serve`.
pub(crate) fn command<'a>(alloc: Global) -> Result<Command<'a>, AllocError> {
    Command::new(alloc, "serve")
        .about(ABOUT)
        .after_help(EXAMPLE)
        .arg(file(alloc))
}

/// Serves the file that is given.
pub(crate) fn run(rt: &HostRuntime, given: &ArgMatches<'_>) -> u8 {
    let path = text_of(given, "file");
    let Some(outcome) = serve(rt, path) else {
        let _ = eprintln!(rt;
            "lafkundi serve: {path}: the file can't be opened, or another program has it"
        );
        return FAILED;
    };
    if let Err(fault) = &outcome {
        let _ = eprintln!(rt; "lafkundi serve: {path}: {fault}");
    }
    status_of(&outcome)
}

/// Answers the lines over the file at `path`; `None` where that can't be opened, or no memory is found.
fn serve(rt: &HostRuntime, path: &str) -> Option<Result<(), RunFault>> {
    let device = open_device(rt, path)?;
    let mut service = TextService::new(rt.alloc(), device, Seeded::draw(rt, Languages));
    run_service(rt, &mut service)
}
