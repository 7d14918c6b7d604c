//! `scorer_cases`: answers worked cases of scorers and combiners. Each line of standard
//! input is a case, an operation and its arguments, and the line of standard output with the same number is its answer.
#![tactic(auto)]

mod changed_scores;
mod clauses;
mod combinators;
mod combined_scores;
mod given_lists;
mod leaves;
mod list_counts;
mod moves;
mod nested_scorers;
mod operations;
mod posting_unions;
mod scored_terms;
mod term_blocks;
mod terms_with_positions;
mod written_terms;

use case_lines::answers;
use operations::ScorerOperations;
use std::io;
use std::process::ExitCode;

fn main(rt: HostRuntime) -> ExitCode {
    let alloc = rt.alloc();
    let Ok(text) = io::read_to_string(alloc, rt.reader()) else {
        return ExitCode::FAILURE;
    };
    let Ok(answers) = answers(alloc, &mut ScorerOperations { alloc }, &text) else {
        return ExitCode::FAILURE;
    };
    match print!(rt; "{answers}") {
        Ok(()) => ExitCode::SUCCESS,
        Err(_) => ExitCode::FAILURE,
    }
}
