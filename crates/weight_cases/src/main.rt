//! `weight_cases`: answers worked cases of what queries answer over a segment. Each line of standard input is a case, an
//! operation and its arguments, and the line of standard output with the same number is its answer.
#![tactic(auto)]

mod operations;
mod told_queries;

use case_lines::answers;
use case_segments::Held;
use operations::WeightCases;
use std::io;
use std::process::ExitCode;

fn main(rt: HostRuntime) -> ExitCode {
    let alloc = rt.alloc();
    let Ok(text) = io::read_to_string(alloc, rt.reader()) else {
        return ExitCode::FAILURE;
    };
    let Ok(held) = Held::empty(alloc) else {
        return ExitCode::FAILURE;
    };
    let Ok(answers) = answers(alloc, &mut WeightCases { held }, &text) else {
        return ExitCode::FAILURE;
    };
    match print!(rt; "{answers}") {
        Ok(()) => ExitCode::SUCCESS,
        Err(_) => ExitCode::FAILURE,
    }
}
