//! `language_cases`: answers each line of standard input, the name of an analyzer and a text, by the text's tokens.
//!
//! A token is its position, a colon and its text; one that takes two positions has `+2` behind its position. Behind
//! `asked` they are those by which the text is asked for. A name that the analyzer doesn't know is answered by `?`. An
//! empty line and a heading, which begins with `#`, answer themselves.
#![tactic(auto)]

use common::{Analyzer, Token};
use languages::{Asked, Languages};
use std::alloc::{AllocError, Global};
use std::io;

fn main(rt: HostRuntime) -> io::Result<()> {
    let alloc = rt.alloc();
    let lines = io::read_to_string(alloc, rt.reader())?;
    let answers = answers_to(alloc, &lines)?;
    rt.print(answers)
}

/// Answers each of `lines`.
fn answers_to(alloc: Global, lines: &str) -> Result<String, AllocError> {
    let mut answers = String::new(alloc);
    for line in lines.lines() {
        if line.is_empty() || line.starts_with('#') {
            answers.push_str(line)?;
        } else {
            push_answer(&mut answers, alloc, line)?;
        }
        answers.push('\n')?;
    }
    Ok(answers)
}

/// Appends the answer to a line.
fn push_answer(answers: &mut String, alloc: Global, line: &str) -> Result<(), AllocError> {
    match line.strip_prefix("asked ") {
        Some(line) => push_answer_by(answers, alloc, &Asked, line),
        None => push_answer_by(answers, alloc, &Languages, line),
    }
}

/// Appends the answer to a line by `analyzer`.
fn push_answer_by<A: Analyzer>(
    answers: &mut String,
    alloc: Global,
    analyzer: &A,
    line: &str,
) -> Result<(), AllocError> {
    let (name, text) = match line.split_once(' ') {
        Some(parts) => parts,
        None => (line, ""),
    };
    if !analyzer.knows(name) {
        return answers.push_str("?");
    }
    push_tokens(answers, alloc, &analyzer.tokens(alloc, name, text)?)
}

/// Appends tokens, with a space between two.
fn push_tokens(answers: &mut String, alloc: Global, tokens: &[Token]) -> Result<(), AllocError> {
    for (i, token) in tokens.iter().enumerate() {
        if i > 0 {
            answers.push(' ')?;
        }
        answers.push_str(&token_text(alloc, token)?)?;
    }
    Ok(())
}

/// Shows a token.
fn token_text(alloc: Global, token: &Token) -> Result<String, AllocError> {
    if token.position_length == 1 {
        format!(in alloc; "{}:{}", token.position, token.text)
    } else {
        format!(in alloc;
            "{}+{}:{}",
            token.position, token.position_length, token.text
        )
    }
}
