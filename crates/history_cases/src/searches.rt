//! Operations that ask the index.

use crate::case_histories::Histories;
use case_lines::{Arguments, Refusal, number, pair, query_by_steps};
use engine::Hit;
use histories::calls;
use serde_json::Value;
use std::alloc::{AllocError, Global};

impl Histories {
    /// The best `k` hits of a query, each as its score and what is stored.
    pub(crate) fn search(&mut self, arguments: &Arguments) -> Result<Value, Refusal> {
        self.best(arguments.number(0)?, arguments.list(1)?)
    }

    /// The best hits of the query of these steps.
    pub(crate) fn best(&mut self, limit: u64, steps: &[Value]) -> Result<Value, Refusal> {
        let query = query_by_steps(self.alloc, steps)?;
        let alloc = self.alloc;
        let hits = calls::search(self.standing_mut()?, &query, limit as usize)?;
        Ok(shown(alloc, &hits)?)
    }

    /// The best `k` hits of a query, and how many blocks of postings were decoded for them.
    pub(crate) fn search_counted(&mut self, arguments: &Arguments) -> Result<Value, Refusal> {
        let query = query_by_steps(self.alloc, arguments.list(1)?)?;
        let limit = arguments.number(0)? as usize;
        let alloc = self.alloc;
        let (hits, blocks) = self.standing_mut()?.search_counted(&query, limit)?;
        Ok(pair(alloc, shown(alloc, &hits)?, number(blocks))?)
    }

    /// How many documents match a query.
    pub(crate) fn count(&self, arguments: &Arguments) -> Result<Value, Refusal> {
        let query = query_by_steps(self.alloc, arguments.list(0)?)?;
        Ok(number(calls::count(self.standing()?, &query)?))
    }
}

/// The score of each hit, and what is stored of its document.
fn shown(alloc: Global, hits: &[Hit]) -> Result<Value, AllocError> {
    let mut values = Vec::new(alloc);
    for hit in hits {
        let doc = hit.doc.to_json_value(alloc)?;
        values.push(pair(alloc, number(hit.score.unsigned_abs()), doc)?)?;
    }
    Ok(Value::Array(values))
}
