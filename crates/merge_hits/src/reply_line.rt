//! The line of the output for the replies to a request.

ghost use Rattle.std.specs.Prelude.{◌≡◌, IfOk, IsTrue, bytes_eq, map, string_bytes};
ghost use Rattle.std.specs.List.{AllByRecursion, list_all};
ghost use Rattle.merge_hits.specs.Lines.{AreAll, IsLine};

use shards::{MergeError, merge_replies, wanted_hits};
use std::alloc::Global;

/// Merges what several indexes replied to `request`; replies that can't be merged have to be one and the same.
pub(crate) fn merged_line(
    alloc: Global,
    request: &str,
    replies: &[String],
) -> Result<String, MergeError>
    ensures { IfOk result (λ line. IsLine request.now (map string_bytes replies.now) (string_bytes line)) }
{
    let wanted = wanted_hits(alloc, request)?;
    match merge_replies(alloc, wanted, replies) {
        Ok(line) => Ok(line),
        Err(MergeError::Unlike) => same_line(alloc, replies),
        Err(error) => Err(error),
    }
}

/// Copies the reply that all of `replies` are.
fn same_line(alloc: Global, replies: &[String]) -> Result<String, MergeError>
    ensures { IfOk result (λ line. AreAll (string_bytes line) (map string_bytes replies.now)) }
{
    match replies {
        [first, ..] if are_all(replies, first.as_str()) => {
            Ok(String::from_str(alloc, first.as_str())?)
        }
        _ => Err(MergeError::Unlike),
    }
}

/// Whether each of `replies` is `text`.
#[tactic(auto, using(crate::proofs::SameReplies::each_equal))]
fn are_all(replies: &[String], text: &str) -> bool
    ensures { IsTrue result → AllByRecursion (λ reply. reply ≡ text.now) (map string_bytes replies.now) }
{
    pass_test(replies, text)
}

/// Whether the bytes of each of `replies` are those of `text`.
fn pass_test(replies: &[String], text: &str) -> bool
    ensures { result ≡ list_all (λ reply. bytes_eq (string_bytes reply) text.now) replies.now }
{
    replies.iter().all(|reply| reply.as_str() == text)
}
