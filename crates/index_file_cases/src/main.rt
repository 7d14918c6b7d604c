//! `index_file_cases`: answers worked cases on files of an index. Each line of standard input is a case,
//! an operation and its arguments, and the line of standard output with the same number is its answer.
#![tactic(auto)]

mod file_written;
mod files;
mod operations;
mod tries;

use case_lines::answers;
use operations::Files;
use std::io;
use std::process::ExitCode;

fn main(rt: HostRuntime) -> ExitCode {
    let alloc = rt.alloc();
    let Ok(text) = io::read_to_string(alloc, rt.reader()) else {
        return ExitCode::FAILURE;
    };
    let Ok(answers) = answers(alloc, &mut Files { alloc }, &text) else {
        return ExitCode::FAILURE;
    };
    match print!(rt; "{answers}") {
        Ok(()) => ExitCode::SUCCESS,
        Err(_) => ExitCode::FAILURE,
    }
}
