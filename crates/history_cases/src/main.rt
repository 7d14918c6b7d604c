//! `history_cases`: answers histories of calls of an index. Each line of standard input is a call with its arguments,
//! and the line of standard output with the same number is its answer.
#![tactic(auto)]

mod case_histories;
mod changes;
mod crash_images;
mod crash_lengths;
mod crashes;
mod searches;

use case_histories::Histories;
use case_lines::answers;
use serde_json::Value;
use std::io;
use std::process::ExitCode;

fn main(rt: HostRuntime) -> ExitCode {
    let alloc = rt.alloc();
    let Ok(text) = io::read_to_string(alloc, rt.reader()) else {
        return ExitCode::FAILURE;
    };
    let mut histories = Histories {
        alloc,
        schema: Value::Null,
        index: None,
        device: None,
    };
    let Ok(answers) = answers(alloc, &mut histories, &text) else {
        return ExitCode::FAILURE;
    };
    match print!(rt; "{answers}") {
        Ok(()) => ExitCode::SUCCESS,
        Err(_) => ExitCode::FAILURE,
    }
}
