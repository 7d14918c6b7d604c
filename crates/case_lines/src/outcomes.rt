//! What became of many tries.

use crate::refusal::Refusal;
use crate::replies::{number, pair, text};
use serde_json::Value;
use std::alloc::{AllocError, Global};

/// The name of what became of a try: a fault's name, what a flag says, `null`, or `read` of any other value.
pub(crate) fn outcome(answer: &Result<Value, Refusal>) -> &'static str {
    match answer {
        Ok(Value::Null) => "null",
        Ok(Value::Bool(true)) => "true",
        Ok(Value::Bool(false)) => "false",
        Ok(_) => "read",
        Err(Refusal::Fault(fault)) => fault.name(),
        Err(Refusal::NotAsked) => "?",
    }
}

/// How often there was each outcome.
#[derive(Drop)]
pub struct Outcomes {
    counts: Vec<(&'static str, u64)>,
}

impl Outcomes {
    /// No outcome.
    pub fn new(alloc: Global) -> Outcomes {
        Outcomes {
            counts: Vec::new(alloc),
        }
    }

    /// Counts an outcome.
    pub fn add(&mut self, outcome: &'static str) -> Result<(), AllocError> {
        for (name, count) in self.counts.iter_mut() {
            if *name == outcome {
                *count = count.saturating_add(1);
                return Ok(());
            }
        }
        Ok(self.counts.push((outcome, 1))?)
    }

    /// The outcomes in the order of their names, and how often there was each.
    pub fn with_counts(mut self, alloc: Global) -> Result<Value, AllocError> {
        self.counts.sort()?;
        let mut list = Vec::new(alloc);
        for (name, count) in &self.counts {
            list.push(pair(alloc, text(alloc, name)?, number(*count))?)?;
        }
        Ok(Value::Array(list))
    }

    /// The outcomes in the order of their names.
    pub fn names(mut self, alloc: Global) -> Result<Value, AllocError> {
        self.counts.sort()?;
        let mut list = Vec::new(alloc);
        for (name, _) in &self.counts {
            list.push(text(alloc, name)?)?;
        }
        Ok(Value::Array(list))
    }
}
