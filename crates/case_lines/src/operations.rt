//! The operations of a program of cases.

use crate::arguments::Arguments;
use crate::refusal::Refusal;
use serde_json::Value;

/// The operations of a program of cases, and what stands between two lines.
pub trait Operations {
    /// What the operation of that name answers.
    fn answer(&mut self, operation: &str, arguments: &Arguments) -> Result<Value, Refusal>;
}
