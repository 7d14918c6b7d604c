//! `query_cases`: answers worked cases of queries, of how they are read from JSON, of what refuses them and of the
//! terms that they read. Each line of standard input is a case, an operation and its arguments, and the line of standard
//! output with the same number is its answer.
#![tactic(auto)]

mod operations;

use case_lines::answers;
use operations::QueryOperations;
use std::io;
use std::process::ExitCode;

fn main(rt: HostRuntime) -> ExitCode {
    let alloc = rt.alloc();
    let Ok(text) = io::read_to_string(alloc, rt.reader()) else {
        return ExitCode::FAILURE;
    };
    let Ok(mut operations) = QueryOperations::new(alloc) else {
        return ExitCode::FAILURE;
    };
    let Ok(answers) = answers(alloc, &mut operations, &text) else {
        return ExitCode::FAILURE;
    };
    match print!(rt; "{answers}") {
        Ok(()) => ExitCode::SUCCESS,
        Err(_) => ExitCode::FAILURE,
    }
}
