//! `index_cases`: answers each line of standard input by one line, over the bytes of a file, an index and a session.
//!
//! An empty line and a heading, which begins with `#`, answer themselves. A line that begins with `{` is a request of the
//! session. Every other line is an operation's name, a space and its arguments; an unknown one is answered `?`. A refusal is
//! answered by its name.
#![tactic(auto)]

mod answers;
mod cases;
mod files;
mod indexes;
mod readings;
mod searches;
mod sessions;

use cases::answers_to;
use std::io;

fn main(rt: HostRuntime) -> io::Result<()> {
    let alloc = rt.alloc();
    let lines = io::read_to_string(alloc, rt.reader())?;
    let answers = answers_to(alloc, &lines)?;
    rt.print(answers)
}
