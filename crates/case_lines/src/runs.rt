//! Outcomes one after the other.

use crate::replies::{number, pair};
use serde_json::Value;
use std::alloc::{AllocError, Global};

/// An outcome, and how often it came in a row.
#[derive(Drop)]
struct Run {
    outcome: Value,
    count: u64,
}

/// Outcomes one after the other.
#[derive(Drop)]
pub struct Runs {
    runs: Vec<Run>,
}

impl Runs {
    /// No outcome.
    pub fn new(alloc: Global) -> Runs {
        Runs {
            runs: Vec::new(alloc),
        }
    }

    /// Appends an outcome.
    pub fn add(&mut self, outcome: Value) -> Result<(), AllocError> {
        let len = self.runs.len();
        if len > 0 && self.runs[len - 1].outcome == outcome {
            self.runs[len - 1].count = self.runs[len - 1].count.saturating_add(1);
            return Ok(());
        }
        Ok(self.runs.push(Run { outcome, count: 1 })?)
    }

    /// The outcomes, each with how often it came.
    pub fn into_value(self, alloc: Global) -> Result<Value, AllocError> {
        let mut list = Vec::new(alloc);
        for run in self.runs {
            list.push(pair(alloc, run.outcome, number(run.count))?)?;
        }
        Ok(Value::Array(list))
    }
}
