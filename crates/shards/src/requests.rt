//! What requests ask for.

ghost use Rattle.std.specs.Prelude.{◌≡◌, IfOk};
ghost use Rattle.shards.specs.Replies.{wanted_in};

use schema::number_at;
use serde_json::Value;
use std::alloc::{AllocError, Global};

/// Returns how many hits at most `request` asks for; 0 if it asks for none.
pub fn wanted_hits(alloc: Global, request: &str) -> Result<usize, AllocError>
    ensures { IfOk result (λ k. k ≡ wanted_in request.now) }
{
    match Value::from_str(alloc, request) {
        Ok(value) => Ok(number_at(&value, "k").unwrap_or(0) as usize),
        Err(e) if e.is_memory() => Err(AllocError),
        Err(_) => Ok(0),
    }
}
