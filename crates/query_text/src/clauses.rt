//! Clauses: words and phrases with what stands beside them.

ghost use Rattle.std.specs.Prelude.{◌≡◌, IfOk, false};
ghost use Rattle.query_text.specs.Clauses.{clause_of, head_view, phrase_of};
ghost use Rattle.query_text.specs.Cutting.{piece_of};
ghost use Rattle.query_text.specs.Reading as definitions;
ghost use Rattle.query_text.specs.Refusals.{Gives};
ghost use Rattle.query_trees.specs.Queries.{occur_of, query_of};

use crate::heads::{Head, cut_boost, head_of, slop_in, starred};
use crate::operators::is_foreign;
use crate::phrase::{Phrase, Vocabulary};
use crate::pieces::Piece;
use crate::refusal::Reason;
use crate::text_terms::is_word_byte;
use query_trees::{AnyQuery, BoostQuery, Occur};
use std::alloc::{AllocError, Global};

/// Reads the clause of a word, in a group that is left out or not.
pub(crate) fn word_clause<V: Vocabulary>(
    alloc: Global,
    words: &V,
    is_excluded: bool,
    run: &[u8],
) -> Result<(Occur, AnyQuery), Reason>
    ensures { Gives clause_of result (definitions.word_clause (V.queries words.now) is_excluded run.now) }
{
    let (run, boost) = cut_boost(run)?;
    let head = head_of(run);
    if head.rest.is_empty() {
        return Err(Reason::NothingMarked);
    }
    if is_foreign(head.rest) {
        return Err(Reason::ForeignOperator);
    }
    if is_range(&head) {
        return Err(Reason::Range);
    }
    if let Some(reason) = open_letters(head.rest) {
        return Err(reason);
    }
    let word = Phrase {
        field: head.field,
        text: head.rest,
        slop: 0,
        is_prefix: false,
        is_excluded: is_excluded || leaves_out(head.occur),
    };
    phrase_clause(alloc, words, head.occur, boost, word)
}

/// Whether `occur` leaves out what matches.
pub(crate) fn leaves_out(occur: Occur) -> bool
    ensures { result ≡ definitions.leaves_out (occur_of occur) }
{
    matches!(occur, Occur::MustNot)
}

/// Returns why a word isn't looked for that leaves letters open.
fn open_letters(text: &[u8]) -> Option<Reason>
    ensures { result ≡ definitions.open_letters text.now }
{
    if text.contains(&b'*') {
        return Some(Reason::LonePrefix);
    }
    if has_open_letter(text) {
        return Some(Reason::Wildcard);
    }
    if text.contains(&b'~') {
        return Some(Reason::Fuzzy);
    }
    None
}

/// Whether `?` stands right before a letter, a digit or a character past ASCII.
fn has_open_letter(text: &[u8]) -> bool
    ensures { result ≡ definitions.has_open_letter false text.now }
{
    let mut before = false;
    for byte in text {
        if before && is_word_byte(*byte) {
            return true;
        }
        before = *byte == b'?';
    }
    false
}

/// Whether a range of values, or the beginning of one, stands behind the name of a field.
fn is_range(head: &Head<'_>) -> bool
    ensures { result ≡ definitions.is_range (head_view head.now) }
{
    head.field.is_some() && begins_range(head.rest)
}

/// Whether `text` begins as ranges of values do.
fn begins_range(text: &[u8]) -> bool
    ensures { result ≡ definitions.begins_range text.now }
{
    match text.first() {
        Some(byte) => matches!(*byte, b'[' | b'{' | b'<' | b'>'),
        None => false,
    }
}

/// Reads the clause of a phrase, in a group that is left out or not.
pub(crate) fn quoted_clause<V: Vocabulary>(
    alloc: Global,
    words: &V,
    is_excluded: bool,
    piece: &Piece<'_>,
) -> Result<(Occur, AnyQuery), Reason>
    ensures { Gives clause_of result
        (definitions.quoted_clause (V.queries words.now) is_excluded (piece_of piece.now)) }
{
    let head = head_of(piece.head);
    if is_foreign(head.rest) {
        return Err(Reason::ForeignOperator);
    }
    if !head.rest.is_empty() {
        return Err(Reason::NoSpace);
    }
    let (tail, boost) = cut_boost(piece.tail)?;
    let slop = slop_in(tail)?;
    let (text, is_prefix) = starred(piece.text);
    let phrase = Phrase {
        field: head.field,
        text,
        slop,
        is_prefix,
        is_excluded: is_excluded || leaves_out(head.occur),
    };
    phrase_clause(alloc, words, head.occur, boost, phrase)
}

/// Makes the clause of a word or phrase.
fn phrase_clause<V: Vocabulary>(
    alloc: Global,
    words: &V,
    occur: Occur,
    boost: Option<u32>,
    phrase: Phrase<'_>,
) -> Result<(Occur, AnyQuery), Reason>
    ensures { Gives clause_of result
        (definitions.phrase_clause (V.queries words.now) (occur_of occur) boost (phrase_of phrase.entry)) }
{
    let query = words.query(alloc, phrase)?;
    Ok((occur, boosted(alloc, boost, query)?))
}

/// Multiplies the scores of `query` by `boost`, if there is one.
pub(crate) fn boosted(
    alloc: Global,
    boost: Option<u32>,
    query: AnyQuery,
) -> Result<AnyQuery, AllocError>
    ensures { IfOk result (λ made. query_of made ≡ definitions.boosted boost (query_of query)) }
{
    match boost {
        Some(boost) => Ok(AnyQuery::Boost(BoostQuery::new(alloc, query, boost as i64)?)),
        None => Ok(query),
    }
}
