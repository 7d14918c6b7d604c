//! A run over the index of a file: lines of requests on standard input, replies on standard output.
#![tactic(auto)]

mod line_run;
mod seeded_analyzer;

pub use line_run::{open_device, run, run_service};
pub use seeded_analyzer::Seeded;
