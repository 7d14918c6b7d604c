//! Scores, as they are told.

use case_lines::{number, pair};
use common::{DocId, Score};
use definitions::Fault;
use serde_json::Value;
use std::alloc::{AllocError, Global};
use term_scorer::Explanation;

/// Documents with their scores.
pub fn scored(alloc: Global, documents: Vec<(DocId, Score)>) -> Result<Value, AllocError> {
    let mut list = Vec::new(alloc);
    for (doc, score) in documents {
        list.push(pair(alloc, number(u64::from(doc)), Value::from(score))?)?;
    }
    Ok(Value::Array(list))
}

/// The score that is explained; null of a document that doesn't match.
pub fn explained_score(explained: Result<Explanation, Fault>) -> Result<Value, Fault> {
    match explained {
        Ok(explanation) => Ok(Value::from(explanation.value())),
        Err(Fault::InvalidArgument) => Ok(Value::Null),
        Err(fault) => Err(fault),
    }
}
