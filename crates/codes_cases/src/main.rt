//! `codes_cases`: answers worked cases on the bytes of posting lists and of files of records. Each line of standard
//! input is a case, an operation and its arguments, and the line of standard output with the same number is its answer.
#![tactic(auto)]

mod blocks;
mod lengths;
mod lists;
mod operations;
mod position_lists;
mod record_files;
mod skip_entries;

use case_lines::answers;
use operations::CodesOperations;
use std::io;
use std::process::ExitCode;

fn main(rt: HostRuntime) -> ExitCode {
    let alloc = rt.alloc();
    let Ok(text) = io::read_to_string(alloc, rt.reader()) else {
        return ExitCode::FAILURE;
    };
    let Ok(answers) = answers(alloc, &mut CodesOperations { alloc }, &text) else {
        return ExitCode::FAILURE;
    };
    match print!(rt; "{answers}") {
        Ok(()) => ExitCode::SUCCESS,
        Err(_) => ExitCode::FAILURE,
    }
}
