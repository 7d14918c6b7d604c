//! `bench`: how fast the crates work, measured at their public calls.
//!
//! With one word it prints a table: `blocks`, `cursors`, `openings`, `scores`, `texts`, `segments` and `merges` (which read
//! them from standard input), or `files`. Without a word it prints nothing.
#![tactic(auto)]

mod block_codes;
mod cursor_walks;
mod files;
mod merges;
mod openings;
mod score_walks;
mod segment_steps;
mod segments;
mod spread_terms;
mod texts;
mod times;

use definitions::Fault;
use std::process::ExitCode;
use std::{env, io};

/// What is measured.
#[derive(Clone, Copy)]
enum Bench {
    Nothing,
    Blocks,
    Cursors,
    Openings,
    Scores,
    Texts,
    Files,
    Segments,
    Merges,
}

fn main(rt: HostRuntime) -> ExitCode {
    match measure(&rt, chosen(&rt)) {
        Ok(()) => ExitCode::SUCCESS,
        Err(_) => ExitCode::FAILURE,
    }
}

/// Prints the table that was asked for.
fn measure(rt: &HostRuntime, bench: Bench) -> Result<(), Fault> {
    match bench {
        Bench::Nothing => Ok(()),
        Bench::Blocks => block_codes::measure(rt),
        Bench::Cursors => cursor_walks::measure(rt, rt.alloc()),
        Bench::Openings => openings::measure(rt, rt.alloc()),
        Bench::Scores => score_walks::measure(rt, rt.alloc()),
        Bench::Texts => texts::measure(rt, rt.alloc(), &input(rt)?),
        Bench::Files => files::measure_all(rt),
        Bench::Segments => segments::measure(rt, rt.alloc(), &input(rt)?),
        Bench::Merges => merges::measure(rt, rt.alloc(), &input(rt)?),
    }
}

/// Reads standard input.
fn input(rt: &HostRuntime) -> Result<String, Fault> {
    match io::read_to_string(rt.alloc(), rt.reader()) {
        Ok(text) => Ok(text),
        Err(_) => Err(Fault::ReadFault),
    }
}

/// What the program's first argument names.
fn chosen(rt: &(impl Alloc + std::rt::Env)) -> Bench {
    let Ok(mut args) = env::args(rt) else {
        return Bench::Nothing;
    };
    let _program = args.next();
    match args.next() {
        Some(word) => bench_of(word.as_str()),
        None => Bench::Nothing,
    }
}

fn bench_of(word: &str) -> Bench {
    match word {
        "blocks" => Bench::Blocks,
        "cursors" => Bench::Cursors,
        "openings" => Bench::Openings,
        "scores" => Bench::Scores,
        "texts" => Bench::Texts,
        "files" => Bench::Files,
        "segments" => Bench::Segments,
        "merges" => Bench::Merges,
        _ => Bench::Nothing,
    }
}
