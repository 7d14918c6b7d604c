//! Queries for the words of a text in a text field.

ghost use Rattle.std.specs.Prelude.{◌≡◌, IfOk, map, true};
ghost use Rattle.common.specs.Token.{token_of};
ghost use Rattle.definitions.specs.Analyzers as analyzers;
ghost use Rattle.query_text.specs.Answers as definitions;
ghost use Rattle.query_text.specs.Clauses.{phrase_of};
ghost use Rattle.query_text.specs.Refusals.{Gives};
ghost use Rattle.query_trees.specs.PhraseTerms.{are_phrase_terms};
ghost use Rattle.query_trees.specs.Queries.{query_of};

use crate::phrase::Phrase;
use crate::refusal::Reason;
use common::{Analyzer, Token};
use options::IndexRecordOption;
use query_trees::{AnyQuery, PhrasePrefixQuery, PhraseQuery, TermQuery, are_phrase_terms};
use schema::FieldEntry;
use std::alloc::{AllocError, Global};
use terms::{Field, Term};

/// How many bytes a word has at most by the analyzer `default`.
const MAX_WORD_LEN: usize = 40;

/// Makes the query for the words of `text`, the text of `phrase`, in `field`.
pub(crate) fn text_query<A: Analyzer>(
    alloc: Global,
    analyzer: &A,
    field: Field,
    entry: &FieldEntry,
    text: &str,
    phrase: Phrase<'_>,
) -> Result<AnyQuery, Reason>
    requires { text.now ≡ phrase.text.now }
    ensures { Gives query_of result
        (definitions.text_query (A.analyze analyzer.now) field entry.now (phrase_of phrase.entry)) }
{
    let tokens = analyzer.tokens(alloc, entry.tokenizer(), text)?;
    let terms = terms_at(alloc, field, &tokens)?;
    words_query(entry.records_positions(), phrase, terms)
}

/// Makes the term of each of `tokens`, at its position.
fn terms_at(alloc: Global, field: Field, tokens: &[Token]) -> Result<Vec<(usize, Term)>, AllocError>
    ensures { IfOk result (λ terms. terms.items ≡ definitions.terms_at field (map token_of tokens.now)) }
{
    let mut terms = Vec::with_capacity(alloc, tokens.len())?;
    for token in tokens {
        let term = Term::from_field_text(alloc, field, token.text.as_str())?;
        terms.push((token.position, term))?;
    }
    Ok(terms)
}

/// Makes the query for `terms`, the words of `phrase`: two or more are a phrase, whose positions must be recorded.
pub(crate) fn words_query(
    with_positions: bool,
    phrase: Phrase<'_>,
    terms: Vec<(usize, Term)>,
) -> Result<AnyQuery, Reason>
    ensures { Gives query_of result (definitions.words_query with_positions (phrase_of phrase.entry) terms.items) }
{
    if are_phrase_terms(2, &terms) {
        return terms_query(with_positions, phrase, terms);
    }
    if terms.is_empty() {
        return Err(no_word(phrase.text));
    }
    let mut terms = terms;
    let (_position, term) = terms.remove(0);
    term_query(phrase.is_prefix, term)
}

/// Returns why `text` has no term.
fn no_word(text: &[u8]) -> Reason
    ensures { result ≡ definitions.no_word text.now }
{
    if has_long_run(text) {
        Reason::LongWord
    } else {
        Reason::NoWord
    }
}

/// Whether letters, digits and characters past ASCII go on in `text` for longer than any word.
fn has_long_run(text: &[u8]) -> bool
    ensures { result ≡ definitions.has_long_run 0 text.now }
{
    let mut count = 0usize;
    for byte in text {
        if !is_word_byte(*byte) {
            count = 0;
        } else if count >= MAX_WORD_LEN {
            return true;
        } else {
            count += 1;
        }
    }
    false
}

/// Whether `byte` is a letter, a digit or of a character past ASCII.
pub(crate) fn is_word_byte(byte: u8) -> bool
    ensures { result ≡ analyzers.is_word_byte byte }
{
    byte.is_ascii_alphanumeric() || byte >= 128
}

/// Makes the query for a term, which is no prefix.
fn term_query(is_prefix: bool, term: Term) -> Result<AnyQuery, Reason>
    ensures { Gives query_of result (definitions.term_query is_prefix term) }
{
    if is_prefix {
        return Err(Reason::LonePrefix);
    }
    Ok(AnyQuery::Term(TermQuery::new(term, IndexRecordOption::WithFreqs)))
}

/// Makes the query for several terms beside each other, if their positions are recorded.
fn terms_query(
    with_positions: bool,
    phrase: Phrase<'_>,
    terms: Vec<(usize, Term)>,
) -> Result<AnyQuery, Reason>
    requires { are_phrase_terms 2 terms.items ≡ true }
    ensures { Gives query_of result (definitions.terms_query with_positions (phrase_of phrase.entry) terms.items) }
{
    if phrase.is_prefix && phrase.slop > 0 {
        return Err(Reason::SlopOfPrefix);
    }
    if !with_positions {
        return Err(Reason::NoPositions);
    }
    Ok(beside(phrase, terms)?)
}

/// Makes the query for several terms beside each other, the last of which may be a prefix.
fn beside(phrase: Phrase<'_>, terms: Vec<(usize, Term)>) -> Result<AnyQuery, AllocError>
    requires { are_phrase_terms 2 terms.items ≡ true }
    ensures { IfOk result (λ query. query_of query ≡ definitions.beside (phrase_of phrase.entry) terms.items) }
{
    if !phrase.is_prefix {
        let query = PhraseQuery::new_with_offset_and_slop(terms, phrase.slop)?;
        return Ok(AnyQuery::Phrase(query));
    }
    let mut query = PhrasePrefixQuery::new_with_offset(terms)?;
    query.set_max_expansions(u32::MAX);
    Ok(AnyQuery::PhrasePrefix(query))
}
