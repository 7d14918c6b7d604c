//! `document_cases`: answers worked cases on values, documents and stores. Each line of standard input is a
//! case, an operation and its arguments, and the line of standard output with the same number is its answer.
#![tactic(auto)]

mod checkpoints;
mod deep_values;
mod documents;
mod mixed_stores;
mod operations;
mod record_bodies;
mod shown_values;
mod stores;
mod values;

use case_lines::answers;
use operations::DocumentOperations;
use std::io;
use std::process::ExitCode;

fn main(rt: HostRuntime) -> ExitCode {
    let alloc = rt.alloc();
    let Ok(text) = io::read_to_string(alloc, rt.reader()) else {
        return ExitCode::FAILURE;
    };
    let Ok(answers) = answers(alloc, &mut DocumentOperations::new(alloc), &text) else {
        return ExitCode::FAILURE;
    };
    match print!(rt; "{answers}") {
        Ok(()) => ExitCode::SUCCESS,
        Err(_) => ExitCode::FAILURE,
    }
}
