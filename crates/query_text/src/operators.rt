//! Operators: words in capitals that stand before or between clauses, and what stands for them in other grammars.

ghost use Rattle.std.specs.List.{list_any};
ghost use Rattle.std.specs.Prelude.{◌≡◌, IfOk, false, map};
ghost use Rattle.query_text.specs.Cutting.{piece_of};
ghost use Rattle.query_text.specs.Operators as definitions;

use crate::heads::is_marked;
use crate::pieces::{Form, Piece, pieces_of};
use crate::typed_marks::{plain_text, signs_of};
use std::alloc::{AllocError, Global};

/// A word that stands before or between clauses.
#[derive(Clone, Copy, Debug, PartialEq, Eq)]
pub enum Operator {
    And,
    Or,
    Not,
}

/// Returns the operator that `run` is, if it is one.
pub(crate) fn operator_in(run: &[u8]) -> Option<Operator>
    ensures { result ≡ definitions.operator_in run.now }
{
    if run.starts_with(b"AND") && run.len() == 3 {
        return Some(Operator::And);
    }
    if run.starts_with(b"OR") && run.len() == 2 {
        return Some(Operator::Or);
    }
    if run.starts_with(b"NOT") && run.len() == 3 {
        return Some(Operator::Not);
    }
    None
}

/// Whether the operator is `NOT`.
pub(crate) fn is_not(operator: Operator) -> bool
    ensures { result ≡ definitions.is_not operator }
{
    matches!(operator, Operator::Not)
}

/// Whether a word, or what stands right before a phrase or a parenthesis, can't follow the operator `before`.
pub(crate) fn cant_follow(before: Operator, head: &[u8]) -> bool
    ensures { result ≡ definitions.cant_follow before head.now }
{
    match operator_in(head) {
        Some(operator) => cant_meet(before, operator),
        None => is_not(before) && is_marked(head),
    }
}

/// Whether `operator` can't stand right behind `before`; `NOT` can stand behind the others.
fn cant_meet(before: Operator, operator: Operator) -> bool
    ensures { result ≡ definitions.cant_meet before operator }
{
    match operator {
        Operator::Not => is_not(before),
        Operator::And | Operator::Or => true,
    }
}

/// Whether the word `text` has an operator of other grammars: `!` before it, `&&` or `||`.
pub(crate) fn is_foreign(text: &[u8]) -> bool
    ensures { result ≡ definitions.is_foreign text.now }
{
    begins(text, b'!') || is_doubled(text, b'&') || is_doubled(text, b'|')
}

/// Whether `text` begins with `byte`.
fn begins(text: &[u8], byte: u8) -> bool
    ensures { result ≡ definitions.begins byte text.now }
{
    match text.first() {
        Some(first) => *first == byte,
        None => false,
    }
}

/// Whether `byte` stands beside itself in `text`.
fn is_doubled(text: &[u8], byte: u8) -> bool
    ensures { result ≡ definitions.is_doubled byte false text.now }
{
    let mut before = false;
    for other in text {
        let same = *other == byte;
        if before && same {
            return true;
        }
        before = same;
    }
    false
}

/// Whether a word of `text` is an operator in small letters, which is looked for as a word.
pub fn has_small_operator(alloc: Global, text: &[u8]) -> Result<bool, AllocError>
    ensures { IfOk result (λ has. has ≡ definitions.has_small text.now) }
{
    let signs = signs_of(alloc, text)?;
    let plain = plain_text(alloc, &signs)?;
    let pieces = pieces_of(alloc, &plain)?;
    Ok(has_small_piece(&pieces))
}

/// Whether one of `pieces` is an operator in small letters.
fn has_small_piece(pieces: &[Piece<'_>]) -> bool
    ensures { result ≡ list_any definitions.is_small_piece (map piece_of pieces.now) }
{
    for piece in pieces {
        if is_small_piece(piece) {
            return true;
        }
    }
    false
}

/// Whether `piece` is an operator in small letters.
fn is_small_piece(piece: &Piece<'_>) -> bool
    ensures { result ≡ definitions.is_small_piece (piece_of piece.now) }
{
    match piece.form {
        Form::Word => is_small(piece.head),
        Form::Quoted | Form::Unclosed | Form::Open | Form::Close => false,
    }
}

/// Whether `run` is an operator in small letters.
fn is_small(run: &[u8]) -> bool
    ensures { result ≡ definitions.is_small run.now }
{
    (run.starts_with(b"and") && run.len() == 3)
        || (run.starts_with(b"or") && run.len() == 2)
        || (run.starts_with(b"not") && run.len() == 3)
}
