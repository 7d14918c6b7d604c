//! `lafkundi`: makes an index in a file, adds documents, asks it, serves requests, looks into it.
#![tactic(auto)]

mod add_command;
mod additions;
mod ask_command;
mod create_command;
mod cures;
mod failure;
mod field_lists;
mod file_index;
mod inspect_command;
mod line_refusal;
mod merge_command;
mod merge_replies_command;
mod serve_command;
mod words;

use clap::{ArgMatches, Command, Error};
use std::alloc::{AllocError, Global};
use std::process::ExitCode;
use std::{env, io};

/// The status where the arguments are wrong, or no memory is found.
const FAILED: u8 = 2;

fn main(rt: HostRuntime) -> ExitCode {
    let Ok(arguments) = arguments(&rt) else {
        let _ = eprintln!(rt; "lafkundi: an argument isn't UTF-8");
        return ExitCode::from(FAILED);
    };
    ExitCode::from(run(&rt, &arguments))
}

/// Returns the arguments, the program's name before them.
fn arguments(rt: &HostRuntime) -> io::Result<Vec<String>> {
    let mut all = Vec::new(rt.alloc());
    for argument in env::args(rt)? {
        all.push(argument)?;
    }
    Ok(all)
}

/// Does what the arguments ask for, or tells what they have to be; returns the status.
fn run(rt: &HostRuntime, arguments: &[String]) -> u8 {
    let Ok(command) = command(rt.alloc()) else {
        let _ = eprintln!(rt; "lafkundi: out of memory");
        return FAILED;
    };
    match command.try_get_matches_from(arguments) {
        Ok(given) => run_subcommand(rt, &given),
        Err(error) => tell_misuse(rt, &error),
    }
}

/// Tells what the arguments have to be, or the help that they ask for.
fn tell_misuse(rt: &HostRuntime, error: &Error) -> u8 {
    let _ = error.print(rt);
    if error.exit_code() == 0 { 0 } else { FAILED }
}

/// Makes the command line of the program.
fn command<'a>(alloc: Global) -> Result<Command<'a>, AllocError> {
    Command::new(alloc, "lafkundi")
        .about("A full-text index in a file")
        .after_help(AFTER_HELP)
        .subcommand_required(true)
        .arg_required_else_help(true)
        .subcommand(create_command::command(alloc)?)?
        .subcommand(add_command::command(alloc)?)?
        .subcommand(ask_command::command(alloc)?)?
        .subcommand(serve_command::command(alloc)?)?
        .subcommand(inspect_command::command(alloc)?)?
        .subcommand(merge_command::command(alloc)?)?
        .subcommand(merge_replies_command::command(alloc)?)
}

/// What stands below the list of commands.
const AFTER_HELP: &str = "\
`lafkundi COMMAND --help` tells more of each, with an example.";

/// Runs the subcommand that is given.
fn run_subcommand(rt: &HostRuntime, given: &ArgMatches<'_>) -> u8 {
    match given.subcommand() {
        Some(("create", given)) => create_command::run(rt, given),
        Some(("add", given)) => add_command::run(rt, given),
        Some(("ask", given)) => ask_command::run(rt, given),
        Some(("serve", given)) => serve_command::run(rt, given),
        Some(("inspect", given)) => inspect_command::run(rt, given),
        Some(("merge", given)) => merge_command::run(rt, given),
        Some(("merge-replies", given)) => merge_replies_command::run(rt, given),
        _ => FAILED,
    }
}
