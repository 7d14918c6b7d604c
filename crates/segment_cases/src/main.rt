//! `segment_cases`: answers worked cases on segments and on the records that list them. Each line of standard input is a
//! case, an operation and its arguments, and the line of standard output with the same number is its answer.
#![tactic(auto)]

mod best_hits;
mod counted_walks;
mod held;
mod merged_segments;
mod operations;
mod record_bodies;
mod searchers;
mod segments;
mod term_answers;
mod term_sinks;
mod written_segments;

use case_lines::answers;
use held::Held;
use std::io;
use std::process::ExitCode;

fn main(rt: HostRuntime) -> ExitCode {
    let alloc = rt.alloc();
    let Ok(text) = io::read_to_string(alloc, rt.reader()) else {
        return ExitCode::FAILURE;
    };
    let Ok(answers) = answers(alloc, &mut Held::empty(alloc), &text) else {
        return ExitCode::FAILURE;
    };
    match print!(rt; "{answers}") {
        Ok(()) => ExitCode::SUCCESS,
        Err(_) => ExitCode::FAILURE,
    }
}
