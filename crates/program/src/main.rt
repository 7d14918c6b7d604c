//! `index FILE`: answers lines of JSON on standard input over the index of a file, which is made where it is absent.
#![tactic(auto)]

use common::{RawAndDefault, RunFault};
use file_run::run;
use index::status_of;
use std::env::FillError;
use std::process::ExitCode;
use std::rt::Env;

/// Bytes that no path which the system opens has.
const MAX_PATH_LEN: usize = 4096;

/// The status where a run can't begin.
const FAILED: u8 = 1;

/// The status where the number of arguments is wrong.
const WRONG_USAGE: u8 = 2;

fn main(rt: HostRuntime) -> ExitCode {
    if !takes_one_argument(&rt) {
        let _ = eprintln!(rt; "usage: index FILE");
        return ExitCode::from(WRONG_USAGE);
    }
    let Some(outcome) = serve_file(&rt) else {
        let _ = eprintln!(rt; "index: device fault");
        return ExitCode::from(FAILED);
    };
    if let Err(fault) = &outcome {
        let _ = eprintln!(rt; "index: {fault}");
    }
    ExitCode::from(status_of(&outcome))
}

/// Whether the program was started with one argument.
fn takes_one_argument(rt: &impl Env) -> bool {
    has_argument(rt, 1) && !has_argument(rt, 2)
}

/// Whether there is an argument of this number, UTF-8 or not; number 0 is the program's name.
fn has_argument(rt: &impl Env, number: usize) -> bool {
    !matches!(rt.arg(number, &mut [0]), Err(FillError::NotPresent))
}

/// Answers the requests over the file that the argument names, or tells that it can't be opened, or that no memory is
/// found.
fn serve_file(rt: &HostRuntime) -> Option<Result<(), RunFault>> {
    let mut path = [0; MAX_PATH_LEN];
    let len = rt.arg(1, &mut path).ok()?;
    run(rt, str::from_utf8(&path[..len]).ok()?, RawAndDefault)
}
