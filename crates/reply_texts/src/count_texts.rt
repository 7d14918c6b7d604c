//! The reply to a count, encoded as a text.

ghost use Rattle.std.specs.Prelude.{◌≡◌, IfOk, string_bytes};
ghost use Rattle.definitions.specs.Replies as definitions;
ghost use Rattle.serde_json.specs.View.{view};

use serde_json::{Value as Json, json};
use std::alloc::{AllocError, Global};

/// Encodes the reply to a count.
pub fn count_text(alloc: Global, count: u64) -> Result<String, AllocError>
    ensures { IfOk result (λ text. string_bytes text ≡ definitions.reply_of (definitions.count_reply count)) }
{
    count_json(alloc, count)?.to_string(alloc)
}

/// Returns the reply to a count as JSON.
fn count_json(alloc: Global, count: u64) -> Result<Json, AllocError>
    ensures { IfOk result (λ json. view json ≡ definitions.count_reply count) }
{
    json!(in alloc; {"count": count})
}
