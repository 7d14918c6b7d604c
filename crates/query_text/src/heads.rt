//! What stands beside the words of a clause: a mark, a field's name, a slop and a boost.

ghost use Rattle.std.specs.Prelude.{◌<◌, ◌==◌, ◌≡◌, IfSome, length, option_map, position};
ghost use Rattle.query_text.specs.Clauses.{head_view};
ghost use Rattle.query_text.specs.Heads as definitions;
ghost use Rattle.query_text.specs.Refusals.{Gives};
ghost use Rattle.query_trees.specs.Queries.{occur_of};

use crate::refusal::Reason;
use query_trees::Occur;

/// What a run of bytes begins with: a mark, a field's name, and what follows.
#[derive(Clone, Copy)]
pub(crate) struct Head<'a> {
    pub(crate) occur: Occur,
    pub(crate) field: Option<&'a [u8]>,
    pub(crate) rest: &'a [u8],
}

/// Splits `run` into a mark, a field's name, and what follows.
pub(crate) fn head_of(run: &[u8]) -> Head<'_>
    ensures { head_view result ≡ definitions.head_of run.now }
{
    let (occur, rest) = marked(run);
    match split_at(rest, b':') {
        Some((field, rest)) => Head {
            occur,
            field: Some(field),
            rest,
        },
        None => Head {
            occur,
            field: None,
            rest,
        },
    }
}

/// Splits `run` into a mark and what follows.
fn marked(run: &[u8]) -> (Occur, &[u8])
    ensures { (occur_of result.0, result.1.now) ≡ definitions.marked run.now }
{
    let Some((first, rest)) = run.split_first() else {
        return (Occur::Should, run);
    };
    match *first {
        b'+' => (Occur::Must, rest),
        b'-' => (Occur::MustNot, rest),
        _ => (Occur::Should, run),
    }
}

/// Whether `run` begins with a mark.
pub(crate) fn is_marked(run: &[u8]) -> bool
    ensures { result ≡ definitions.is_marked run.now }
{
    match run.first() {
        Some(byte) => matches!(*byte, b'+' | b'-'),
        None => false,
    }
}

/// Splits `text` at the first `byte`, which is in neither part; `None` if there is none.
fn split_at(text: &[u8], byte: u8) -> Option<(&[u8], &[u8])>
    ensures { option_map (λ p. (p.0.now, p.1.now)) result ≡ definitions.split_at byte text.now }
{
    let at = index_of(text, byte)?;
    Some((&text[..at], &text[at + 1..]))
}

/// Returns the index of the first `byte`, if there is one.
fn index_of(text: &[u8], byte: u8) -> Option<usize>
    ensures first { result ≡ position (λ b. b == byte) text.now }
    ensures within { IfSome result (λ at. at < length text.now) }
{
    text.iter().position(|b| *b == byte)
}

/// Splits `text` into what stands before the first `^`, and the number behind it.
pub(crate) fn cut_boost(text: &[u8]) -> Result<(&[u8], Option<u32>), Reason>
    ensures { Gives (λ p. (p.0.now, p.1)) result (definitions.cut_boost text.now) }
{
    let Some((before, digits)) = split_at(text, b'^') else {
        return Ok((text, None));
    };
    match number_in(digits) {
        Some(number) => Ok((before, Some(number))),
        None => Err(Reason::BadNumber),
    }
}

/// Reads the slop of a phrase in what stands right behind it; 0 if that is nothing.
pub(crate) fn slop_in(tail: &[u8]) -> Result<u32, Reason>
    ensures { Gives (λ slop. slop) result (definitions.slop_in tail.now) }
{
    let Some((first, digits)) = tail.split_first() else {
        return Ok(0);
    };
    if *first != b'~' {
        return Err(Reason::NoSpace);
    }
    match number_in(digits) {
        Some(number) => Ok(number),
        None => Err(Reason::BadNumber),
    }
}

/// Reads one digit or more, of a number below 2^32.
fn number_in(text: &[u8]) -> Option<u32>
    ensures { result ≡ definitions.number_in text.now }
{
    if text.is_empty() {
        return None;
    }
    let mut number = 0;
    for byte in text {
        number = with_digit(number, *byte)?;
    }
    Some(number)
}

/// Appends a digit to `number`; `None` if it is none, or the number isn't below 2^32.
fn with_digit(number: u32, byte: u8) -> Option<u32>
    ensures { result ≡ definitions.with_digit number byte }
{
    if !byte.is_ascii_digit() {
        return None;
    }
    let longer = 10 * number as u64 + (byte - b'0') as u64;
    if longer > u32::MAX as u64 {
        return None;
    }
    Some(longer as u32)
}

/// Takes the `*` off the end of a phrase; returns the text before it, and whether there is one.
pub(crate) fn starred(text: &[u8]) -> (&[u8], bool)
    ensures { (result.0.now, result.1) ≡ definitions.starred text.now }
{
    let count = text.len();
    if count > 0 && text[count - 1] == b'*' {
        (&text[..count - 1], true)
    } else {
        (text, false)
    }
}
