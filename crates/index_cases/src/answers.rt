//! Arguments that several operations read, and answers that several give.

use definitions::Fault;
use serde_json::Value as Json;
use std::alloc::{AllocError, Global};

/// The answer where there is nothing to tell.
pub(crate) fn ok(alloc: Global) -> Result<String, Fault> {
    Ok(String::from_str(alloc, "ok")?)
}

/// A refusal by its name; damage of a file with the offset of its gate.
pub(crate) fn fault_text(alloc: Global, fault: Fault) -> Result<String, AllocError> {
    match fault {
        Fault::Damaged(Some(gate)) => format!(in alloc; "Damaged {gate}"),
        fault => String::from_str(alloc, fault.name()),
    }
}

/// The JSON in a text; `BadRequest` where it is none.
pub(crate) fn json_in(alloc: Global, text: &str) -> Result<Json, Fault> {
    match Json::from_str(alloc, text) {
        Ok(json) => Ok(json),
        Err(_) => Err(Fault::BadRequest),
    }
}
