//! The words that a query looks for in a field.

ghost use Rattle.std.specs.Prelude.{[], ◌++◌, ◌∷◌, ◌≡◌, IfOk, OnOk, map, option_map, reverse};
ghost use Rattle.ask.specs.Sought as definitions;
ghost use Rattle.definitions.specs.Schema.{text_kind};
ghost use Rattle.definitions.specs.Terms.{has_kind};
ghost use Rattle.query_trees.specs.Queries.{clauses_of, occur_of, query_of};
ghost use Rattle.query_trees.specs.Walks.{seen};
ghost use Rattle.snippets.specs.Views.{word_of};

use index::{AnyQuery, Field, Occur, Term};
use query_trees::{push_disjuncts, push_query};
use snippets::Word;
use std::alloc::{AllocError, Global};
use terms::Type;

/// Returns the words that `query` looks for in the texts of `field`, without those of clauses that must not match.
pub(crate) fn words_in<'q>(
    alloc: Global,
    query: &'q AnyQuery,
    field: Field,
) -> Result<Vec<Word<'q>>, AllocError>
    ensures { IfOk result (λ words. map word_of words.items ≡ definitions.sought field (query_of query.now)) }
{
    let nodes = asked(alloc, query)?;
    let mut words = Vec::new(alloc);
    for node in &nodes {
        push_words(&mut words, *node, field)?;
    }
    Ok(words)
}

/// Lists the nodes of `query` without those of clauses that must not match, each before those below it.
fn asked<'q>(alloc: Global, query: &'q AnyQuery) -> Result<Vec<&'q AnyQuery>, AllocError>
    ensures { IfOk result (λ nodes. map seen nodes.items ≡ definitions.asked (query_of query.now)) }
{
    let mut waiting = Vec::new(alloc);
    push_query(&mut waiting, query)?;
    let mut nodes = Vec::new(alloc);
    while let Some(node) = waiting.pop() {
        push_below(&mut waiting, node)?;
        nodes.push(node)?;
    }
    Ok(nodes)
}

/// Appends the queries right below `node` that may match, the first one last.
fn push_below<'q>(waiting: &mut Vec<&'q AnyQuery>, node: &'q AnyQuery) -> Result<(), AllocError>
    ensures { OnOk result (map seen waiting.new.items
        ≡ map seen waiting.old.items ++ reverse (definitions.below (query_of node.now))) }
{
    match node {
        AnyQuery::Boolean(query) => push_clauses(waiting, query.clauses()),
        AnyQuery::DisjunctionMax(query) => push_disjuncts(waiting, query.disjuncts()),
        AnyQuery::Boost(query) => push_query(waiting, query.query()),
        AnyQuery::ConstScore(query) => push_query(waiting, query.query()),
        AnyQuery::All(_)
        | AnyQuery::Empty(_)
        | AnyQuery::Term(_)
        | AnyQuery::Phrase(_)
        | AnyQuery::PhrasePrefix(_) => Ok(()),
    }
}

/// Appends the queries of `clauses` that may match, the first one last.
fn push_clauses<'q>(
    waiting: &mut Vec<&'q AnyQuery>,
    clauses: &'q [(Occur, AnyQuery)],
) -> Result<(), AllocError>
    ensures { OnOk result (map seen waiting.new.items
        ≡ map seen waiting.old.items ++ reverse (definitions.clauses_below (clauses_of clauses.now))) }
{
    for (occur, query) in clauses.iter().rev() {
        push_clause(waiting, *occur, query)?;
    }
    Ok(())
}

/// Appends `query`, which a clause asks, if it may match.
fn push_clause<'q>(
    waiting: &mut Vec<&'q AnyQuery>,
    occur: Occur,
    query: &'q AnyQuery,
) -> Result<(), AllocError>
    ensures { OnOk result (map seen waiting.new.items
        ≡ map seen waiting.old.items ++ definitions.if_asked (occur_of occur) (query_of query.now ∷ [])) }
{
    match occur {
        Occur::Must | Occur::Should => push_query(waiting, query),
        Occur::MustNot => Ok(()),
    }
}

/// Appends the words of `node` in `field`, without those of the queries below it.
fn push_words<'q>(
    words: &mut Vec<Word<'q>>,
    node: &'q AnyQuery,
    field: Field,
) -> Result<(), AllocError>
    ensures { OnOk result (map word_of words.new.items
        ≡ map word_of words.old.items ++ definitions.own_words field (query_of node.now)) }
{
    match node {
        AnyQuery::Term(query) => push_word(words, query.term(), field, false),
        AnyQuery::Phrase(query) => push_terms(words, query.terms(), field),
        AnyQuery::PhrasePrefix(query) => push_prefixed(words, query.terms(), field),
        AnyQuery::All(_)
        | AnyQuery::Empty(_)
        | AnyQuery::Boolean(_)
        | AnyQuery::DisjunctionMax(_)
        | AnyQuery::Boost(_)
        | AnyQuery::ConstScore(_) => Ok(()),
    }
}

/// Appends the words of `terms` in `field`, of which the last is the beginning of words.
fn push_prefixed<'q>(
    words: &mut Vec<Word<'q>>,
    terms: &'q [(usize, Term)],
    field: Field,
) -> Result<(), AllocError>
    ensures { OnOk result (map word_of words.new.items
        ≡ map word_of words.old.items ++ definitions.words_in_prefixed field terms.now) }
{
    for number in 0..terms.len() {
        let is_last = number + 1 == terms.len();
        push_word(words, &terms[number].1, field, is_last)?;
    }
    Ok(())
}

/// Appends the words of `terms` in `field`.
fn push_terms<'q>(
    words: &mut Vec<Word<'q>>,
    terms: &'q [(usize, Term)],
    field: Field,
) -> Result<(), AllocError>
    ensures { OnOk result (map word_of words.new.items
        ≡ map word_of words.old.items ++ definitions.words_in_terms field terms.now) }
{
    for (_offset, term) in terms {
        push_word(words, term, field, false)?;
    }
    Ok(())
}

/// Appends the word of `term` if it is a text of `field`.
fn push_word<'q>(
    words: &mut Vec<Word<'q>>,
    term: &'q Term,
    field: Field,
    is_prefix: bool,
) -> Result<(), AllocError>
    ensures { OnOk result (map word_of words.new.items
        ≡ map word_of words.old.items ++ definitions.word_in field is_prefix term.now) }
{
    match text_in(term, field) {
        Some(text) => {
            words.push(Word { text, is_prefix })?;
            Ok(())
        }
        None => Ok(()),
    }
}

/// Returns the text of `term`, if it is one of `field`.
fn text_in(term: &Term, field: Field) -> Option<&str>
    ensures { option_map (λ text. text.now) result ≡ definitions.text_in field term.now }
{
    if !is_text_of(term, field) {
        return None;
    }
    utf8_in(term.serialized_value_bytes())
}

/// Returns `bytes` as a text, if they are UTF-8.
fn utf8_in(bytes: &[u8]) -> Option<&str>
    ensures { option_map (λ text. text.now) result ≡ definitions.utf8_in bytes.now }
{
    match str::from_utf8(bytes) {
        Ok(text) => Some(text),
        Err(_) => None,
    }
}

/// Whether `term` is one of a text field that is `field`.
fn is_text_of(term: &Term, field: Field) -> bool
    ensures { result ≡ definitions.is_text_of field term.now }
{
    term.field() == field && is_text(term)
}

/// Whether `term` is one of a text field.
fn is_text(term: &Term) -> bool
    ensures { result ≡ has_kind text_kind term.now }
{
    matches!(term.typ(), Type::Str)
}
