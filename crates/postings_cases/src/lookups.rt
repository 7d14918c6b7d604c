//! Terms looked up in an index.

use crate::asked_terms::asked_term;
use crate::sections::postings_of;
use case_lines::{Arguments, Refusal, field_in, hex, number, numbers, pair, triple};
use options::IndexRecordOption;
use postings::DocSet;
use schema::Term;
use segment_reader::InvertedIndexReader;
use serde_json::Value;
use std::alloc::Global;

/// What an operation on the index answers.
pub(crate) fn answer(
    alloc: Global,
    reader: &InvertedIndexReader,
    operation: &str,
    arguments: &Arguments,
) -> Result<Value, Refusal> {
    match operation {
        "index-num-terms" => {
            Ok(number(reader.terms(field_in(arguments.value(0)?)?).num_terms() as u64))
        }
        "index-num-tokens" => Ok(number(reader.total_num_tokens(field_in(arguments.value(0)?)?))),
        "index-range" => range(alloc, reader, arguments),
        _ => {
            let term = asked_term(alloc, arguments.value(0)?)?;
            answer_of_term(alloc, reader, operation, &term)
        }
    }
}

/// What an operation on a term answers.
fn answer_of_term(
    alloc: Global,
    reader: &InvertedIndexReader,
    operation: &str,
    term: &Term,
) -> Result<Value, Refusal> {
    match operation {
        "index-doc-freq" => Ok(number(u64::from(reader.doc_freq(term)))),
        "index-postings" => postings(alloc, reader, term),
        "index-info" => info(alloc, reader, term),
        "index-info-postings" => info_postings(alloc, reader, term),
        "index-block" => block(alloc, reader, term),
        _ => Err(Refusal::NotAsked),
    }
}

/// A term's documents, each with its count and its positions.
fn postings(alloc: Global, reader: &InvertedIndexReader, term: &Term) -> Result<Value, Refusal> {
    let mut list = Vec::new(alloc);
    for (doc, count, positions) in postings_of(alloc, reader, term)? {
        let positions = numbers(alloc, &positions)?;
        list.push(triple(
            alloc,
            number(u64::from(doc)),
            number(u64::from(count)),
            positions,
        )?)?;
    }
    Ok(Value::Array(list))
}

/// The terms of a field between two keys, each with how many documents have it.
fn range(
    alloc: Global,
    reader: &InvertedIndexReader,
    arguments: &Arguments,
) -> Result<Value, Refusal> {
    let start = arguments.bytes(alloc, 1)?;
    let end = match arguments.value(2)? {
        Value::Null => None,
        _ => Some(arguments.bytes(alloc, 2)?),
    };
    let field = field_in(arguments.value(0)?)?;
    let mut list = Vec::new(alloc);
    let mut terms = reader.range(alloc, field, &start, end.as_deref())?;
    while terms.advance() {
        let doc_freq = number(u64::from(terms.value().doc_freq));
        list.push(pair(alloc, hex(alloc, terms.key())?, doc_freq)?)?;
    }
    Ok(Value::Array(list))
}

/// How many documents have a term, and where its postings and its positions stand.
fn info(alloc: Global, reader: &InvertedIndexReader, term: &Term) -> Result<Value, Refusal> {
    let Some(info) = reader.get_term_info(term) else {
        return Ok(Value::Null);
    };
    let postings = &info.postings_range;
    let positions = &info.positions_range;
    Ok(triple(
        alloc,
        number(u64::from(info.doc_freq)),
        pair(
            alloc,
            number(postings.start as u64),
            number(postings.end as u64),
        )?,
        pair(
            alloc,
            number(positions.start as u64),
            number(positions.end as u64),
        )?,
    )?)
}

/// How many blocks are decoded where postings are opened by their info, and the second document.
fn info_postings(
    alloc: Global,
    reader: &InvertedIndexReader,
    term: &Term,
) -> Result<Value, Refusal> {
    let Some(info) = reader.get_term_info(term) else {
        return Ok(Value::Null);
    };
    let option = IndexRecordOption::Basic;
    let value_bytes = term.serialized_value_bytes();
    let mut postings = reader.read_postings_from_terminfo(term.field(), value_bytes, &info, option);
    let decoded = number(u64::from(postings.decoded_blocks()));
    Ok(pair(alloc, decoded, number(u64::from(postings.advance())))?)
}

/// How many documents the first block has, and the counts of them.
fn block(alloc: Global, reader: &InvertedIndexReader, term: &Term) -> Result<Value, Refusal> {
    let Some(blocks) = reader.read_block_postings(term, IndexRecordOption::WithFreqs) else {
        return Ok(Value::Null);
    };
    let mut counts = Vec::new(alloc);
    for index in 0..blocks.block_len() {
        counts.push(blocks.freq(index))?;
    }
    Ok(pair(
        alloc,
        number(blocks.block_len() as u64),
        numbers(alloc, &counts)?,
    )?)
}
