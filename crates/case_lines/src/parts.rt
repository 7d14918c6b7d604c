//! Parts of JSON lists.

use crate::{Refusal, number_in};
use serde_json::Value;

/// The items of a list.
pub fn items_in(value: &Value) -> Result<&[Value], Refusal> {
    match value.as_array() {
        Some(items) => Ok(items.as_slice()),
        None => Err(Refusal::NotAsked),
    }
}

/// The number below 2^32 that a value is.
pub(crate) fn small_in(value: &Value) -> Result<u32, Refusal> {
    u32::try_from(number_in(value)?)
        .ok()
        .ok_or(Refusal::NotAsked)
}
