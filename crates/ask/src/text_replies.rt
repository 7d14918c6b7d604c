//! The reply to a question, as a line of JSON.

use crate::explanation::push_cure;
use crate::passages::{has_word, snippet_in};
use crate::question::{Question, Unanswered, query_of};
use definitions::Fault;
use index::{Analyzer, AnyQuery, Device, Hit, Index, Schema};
use query_text::Refusal;
use serde_json::Value as Json;
use snippets::Snippet;
use std::alloc::{AllocError, Global};
use std::collections::BTreeMap;

/// Returns the reply to `question` over `index`: how many documents match, and the best `k` of them but for the first
/// `start`.
///
/// A hit has the stored values, the score, and for each text with a word that is looked for its best passage: a list of
/// texts that make it, of which the second, the fourth and so on are the words. Where the text isn't read as a query, the
/// reply has the byte and what to write instead.
pub fn answer_line<D: Device + Drop, A: Analyzer + Drop>(
    alloc: Global,
    index: &mut Index<D, A>,
    question: &Question<'_>,
    start: usize,
    k: usize,
) -> Result<String, Fault> {
    match query_of(alloc, index, question) {
        Ok(query) => hits_line(alloc, index, &query, start, k),
        Err(Unanswered::NotRead(refusal)) => {
            Ok(refusal_line(alloc, question.text, index.schema(), refusal)?)
        }
        Err(Unanswered::Refused(fault)) => Err(fault),
    }
}

/// Returns the reply that has the hits of `query`.
fn hits_line<D: Device + Drop, A: Analyzer + Drop>(
    alloc: Global,
    index: &mut Index<D, A>,
    query: &AnyQuery,
    start: usize,
    k: usize,
) -> Result<String, Fault> {
    let count = index.count(query)?;
    let hits = index.search(query, start.saturating_add(k))?;
    let mut line = format!(in alloc; "{{\"count\":{count},\"hits\":[")?;
    for (i, hit) in hits.iter().enumerate().skip(start) {
        if i > start {
            line.push(',')?;
        }
        push_hit(&mut line, alloc, index.schema(), query, hit)?;
    }
    line.push_str("]}")?;
    Ok(line)
}

/// Appends a hit.
fn push_hit(
    line: &mut String,
    alloc: Global,
    schema: &Schema,
    query: &AnyQuery,
    hit: &Hit,
) -> Result<(), AllocError> {
    line.push_str(&format!(in alloc; "{{\"doc\":{},\"passages\":{{", hit.doc)?)?;
    let mut is_first = true;
    for (name, snippet) in passages_of(alloc, schema, query, hit)? {
        if !is_first {
            line.push(',')?;
        }
        push_json(line, alloc, name)?;
        line.push(':')?;
        push_passage(line, alloc, &snippet)?;
        is_first = false;
    }
    line.push_str(&format!(in alloc; "}},\"score\":{}}}", hit.score)?)?;
    Ok(())
}

/// Returns the passages of a hit that have a word of `query`, by the names of their fields.
fn passages_of<'h>(
    alloc: Global,
    schema: &Schema,
    query: &AnyQuery,
    hit: &'h Hit,
) -> Result<BTreeMap<&'h str, Snippet<'h>>, AllocError> {
    let mut passages = BTreeMap::new(alloc);
    for (name, values) in hit.doc.fields() {
        match snippet_in(alloc, schema, query, name.as_str(), values.as_slice())? {
            Some(snippet) if has_word(&snippet) => {
                drop(passages.insert(name.as_str(), snippet)?);
            }
            _ => {}
        }
    }
    Ok(passages)
}

/// Appends the texts of a passage, of which each second one is a word that is looked for.
fn push_passage(line: &mut String, alloc: Global, snippet: &Snippet<'_>) -> Result<(), AllocError> {
    let mut plain = String::new(alloc);
    if snippet.start > 0 {
        plain.push_str(".. ")?;
    }
    line.push('[')?;
    for (i, piece) in snippet.pieces.iter().enumerate() {
        if snippet.start <= i && i < snippet.end {
            if piece.found.is_some() {
                push_json(line, alloc, plain.as_str())?;
                line.push(',')?;
                push_json(line, alloc, piece.word)?;
                line.push(',')?;
                plain.clear();
                plain.push_str(piece.text.strip_prefix(piece.word).unwrap_or(""))?;
            } else {
                plain.push_str(piece.text)?;
            }
        }
    }
    if snippet.end < snippet.pieces.len() {
        plain.push_str("..")?;
    }
    push_json(line, alloc, plain.as_str())?;
    line.push(']')
}

/// Returns the reply to a text that isn't read.
fn refusal_line(
    alloc: Global,
    text: &str,
    schema: &Schema,
    refusal: Refusal,
) -> Result<String, AllocError> {
    let mut cure = String::new(alloc);
    push_cure(&mut cure, alloc, text, schema, refusal)?;
    let mut line = format!(in alloc; "{{\"at\":{},\"cure\":", refusal.place)?;
    push_json(&mut line, alloc, cure.as_str())?;
    line.push_str(",\"error\":\"NotRead\"}")?;
    Ok(line)
}

/// Appends a text as JSON.
fn push_json(line: &mut String, alloc: Global, text: &str) -> Result<(), AllocError> {
    let json = Json::try_from_str(alloc, text)?;
    line.push_str(&json.to_string(alloc)?)
}
