//! `phrase_cases`: answers worked cases of phrases over the postings of documents. Each line of standard input is a
//! case, an operation and its arguments, and the line of standard output with the same number is its answer.
//!
//! The answers come from a plain count: a place of a phrase is a position of its last word for which some choice of one
//! position of each earlier word, all moved by the greatest offset less the word's own, makes the distances between
//! neighbours sum to at most the slop. The 500 documents at the end are made at random: each of three words has one to
//! six positions below 6, 12 or 30, some of them equal.
#![tactic(auto)]

mod asked_terms;
mod held;
mod indexes;
mod operations;
mod phrase_rows;
mod prefix_rows;
mod sinks;

use case_lines::answers;
use held::Held;
use std::io;
use std::process::ExitCode;

fn main(rt: HostRuntime) -> ExitCode {
    let alloc = rt.alloc();
    let Ok(text) = io::read_to_string(alloc, rt.reader()) else {
        return ExitCode::FAILURE;
    };
    let Ok(answers) = answers(alloc, &mut Held::empty(alloc), &text) else {
        return ExitCode::FAILURE;
    };
    match print!(rt; "{answers}") {
        Ok(()) => ExitCode::SUCCESS,
        Err(_) => ExitCode::FAILURE,
    }
}
