//! Replies to a count.

ghost use Rattle.std.specs.Prelude.{◌++◌, ◌≡◌, IfOk, map, option_map, string_bytes, sum};
ghost use Rattle.definitions.specs.Replies.{count_reply, reply_of};
ghost use Rattle.serde_json.specs.View.{view};
ghost use Rattle.shards.specs.Replies as words;

use schema::has_only;
use serde_json::Value;
use std::alloc::{AllocError, Global};

/// Adds up what replies to a count tell; `None` if one is no such reply.
pub(crate) fn total_count(replies: &[Value]) -> Option<u128>
    ensures { result ≡ option_map sum (words.each_of words.count_in (map view replies.now)) }
{
    let mut total: u128 = 0;
    for reply in replies {
        let count = count_in(reply)?;
        total += u128::from(count);
    }
    Some(total)
}

/// Returns how many documents the reply to a count tells.
fn count_in(reply: &Value) -> Option<u64>
    ensures { result ≡ words.count_in (view reply.now) }
{
    if !has_only(reply, &["count"]) {
        return None;
    }
    reply.get("count").and_then(Value::as_u64)
}

/// Encodes the reply to a count.
pub(crate) fn count_text(alloc: Global, total: u128) -> Result<String, AllocError>
    ensures { IfOk result (λ text. string_bytes text ≡ reply_of (count_reply total)) }
{
    format!(in alloc; "{{\"count\":{total}}}")
}
