//! `schema_cases`: answers worked cases on facets, schemas, terms, tokens and numbers. Each line of standard input is a
//! case, an operation and its arguments, and the line of standard output with the same number is its answer.
#![tactic(auto)]

mod facets;
mod made_terms;
mod numbers;
mod operations;
mod schemas;
mod terms_as_bytes;
mod terms_at_paths;
mod tokens;

use case_lines::answers;
use operations::SchemaOperations;
use std::io;
use std::process::ExitCode;

fn main(rt: HostRuntime) -> ExitCode {
    let alloc = rt.alloc();
    let Ok(text) = io::read_to_string(alloc, rt.reader()) else {
        return ExitCode::FAILURE;
    };
    let Ok(answers) = answers(alloc, &mut SchemaOperations::new(alloc), &text) else {
        return ExitCode::FAILURE;
    };
    match print!(rt; "{answers}") {
        Ok(()) => ExitCode::SUCCESS,
        Err(_) => ExitCode::FAILURE,
    }
}
