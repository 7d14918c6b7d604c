//! `weight_calls`: answers worked cases that call the items of weights, scorers, walks and queries one by one over a
//! segment. Each line of standard input is a case, an operation and its arguments, and the line of standard output with
//! the same number is its answer.
#![tactic(auto)]

mod asked_queries;
mod block_walks;
mod boxed_scorers;
mod counted_forms;
mod leaf_forms;
mod made_weights;
mod operations;
mod plain_queries;
mod searched_queries;
mod weighed_queries;

use case_lines::answers;
use case_segments::Held;
use operations::WeightCalls;
use std::io;
use std::process::ExitCode;

fn main(rt: HostRuntime) -> ExitCode {
    let alloc = rt.alloc();
    let Ok(text) = io::read_to_string(alloc, rt.reader()) else {
        return ExitCode::FAILURE;
    };
    let Ok(held) = Held::empty(alloc) else {
        return ExitCode::FAILURE;
    };
    let Ok(answers) = answers(alloc, &mut WeightCalls { held }, &text) else {
        return ExitCode::FAILURE;
    };
    match print!(rt; "{answers}") {
        Ok(()) => ExitCode::SUCCESS,
        Err(_) => ExitCode::FAILURE,
    }
}
