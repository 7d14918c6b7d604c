//! Several replies to one request, merged into one.

ghost use Rattle.std.specs.Prelude.{◌<◌, ◌≡◌, ◌≤◌, false, IfErr, IfOk, List, MatchOption, None, Some, length, map, string_bytes, ℕ};
ghost use Rattle.definitions.specs.Analyzers.{Analyzer};
ghost use Rattle.definitions.specs.Query.{Query};
ghost use Rattle.definitions.specs.Replies as replying;
ghost use Rattle.definitions.specs.Scanning.{scan, scan_count};
ghost use Rattle.definitions.specs.Schema.{Schema};
ghost use Rattle.definitions.specs.Scoring.{Similarity};
ghost use Rattle.definitions.specs.Values.{Document};
ghost use Rattle.serde_json.specs.Data.{Data};
ghost use Rattle.serde_json.specs.Read.{read};
ghost use Rattle.serde_json.specs.View.{view};
ghost use Rattle.serde_json.specs.Written.{compact_text, has_float};
ghost use Rattle.shards.specs.Replies as words;
ghost use Rattle.shards.specs.declared.merge_error.MergeError.TheVariants as errors;

use crate::counts::{count_text, total_count};
use crate::hits::{all_hits, hits_text, keep_best};
use crate::merge_error::MergeError;
use serde_json::Value;
use std::alloc::{AllocError, Global};

/// Merges the replies of several indexes to one search for the best `k`, or to one count: of all hits the best are told,
/// by score, then by index, then as they stand, and counts are added up.
pub fn merge_replies(alloc: Global, k: usize, replies: &[String]) -> Result<String, MergeError>
    ensures search { (schema : Schema) (analyze : Analyzer) (sim : Similarity) (q : Query) (j : ℕ)
        (lists : List (List Document)) → k ≤ j → 0 < length lists → words.readings (map string_bytes replies.now)
        ≡ Some (map (λ docs. replying.hits_reply (scan schema analyze sim docs q j)) lists)
        → IfOk result (λ text. string_bytes text ≡ replying.reply_of (replying.hits_reply
        (scan schema analyze sim (words.joined lists) q k))) }
    ensures count { (schema : Schema) (analyze : Analyzer) (q : Query) (lists : List (List Document))
        → words.readings (map string_bytes replies.now)
        ≡ Some (map (λ docs. replying.count_reply (scan_count schema analyze docs q)) lists)
        → IfOk result (λ text. string_bytes text ≡ replying.reply_of (replying.count_reply
        (scan_count schema analyze (words.joined lists) q))) }
    ensures merged { IfOk result (λ text. (ds : List Data) × (d : Data)
        × (words.readings (map string_bytes replies.now) ≡ Some ds) × (words.merged k ds ≡ Some d)
        × (has_float d ≡ false → string_bytes text ≡ compact_text d)) }
    ensures not_json { IfErr result (λ e. e ≡ errors.NotJson → words.readings (map string_bytes replies.now) ≡ None) }
    ensures unlike { IfErr result (λ e. e ≡ errors.Unlike → (ds : List Data)
        × (words.readings (map string_bytes replies.now) ≡ Some ds) × (words.merged k ds ≡ None)) }
{
    let values = read_replies(alloc, replies)?;
    match merged_text(alloc, k, &values)? {
        Some(text) => Ok(text),
        None => Err(MergeError::Unlike),
    }
}

/// Merges the replies to a count or to a search; `None` if they are neither.
fn merged_text(alloc: Global, k: usize, replies: &[Value]) -> Result<Option<String>, AllocError>
    ensures { IfOk result (λ found. MatchOption found (words.merged k (map view replies.now) ≡ None)
        (λ text. (d : Data) × (words.merged k (map view replies.now) ≡ Some d)
        × (has_float d ≡ false → string_bytes text ≡ compact_text d))) }
{
    match total_count(replies) {
        Some(total) => Ok(Some(count_text(alloc, total)?)),
        None => best_hits_text(alloc, k, replies),
    }
}

/// Merges the replies to a search; `None` if one is no such reply.
fn best_hits_text(alloc: Global, k: usize, replies: &[Value]) -> Result<Option<String>, AllocError>
    ensures { IfOk result (λ found. MatchOption found (words.searched k (map view replies.now) ≡ None)
        (λ text. (d : Data) × (words.searched k (map view replies.now) ≡ Some d)
        × (has_float d ≡ false → string_bytes text ≡ compact_text d))) }
{
    match all_hits(alloc, replies)? {
        Some(mut hits) => {
            keep_best(&mut hits, k)?;
            Ok(Some(hits_text(alloc, &hits)?))
        }
        None => Ok(None),
    }
}

/// Reads each reply as JSON.
fn read_replies(alloc: Global, replies: &[String]) -> Result<Vec<Value>, MergeError>
    ensures ok { IfOk result (λ values. words.readings (map string_bytes replies.now) ≡ Some (map view values.items)) }
    ensures not_json { IfErr result (λ e. e ≡ errors.NotJson → words.readings (map string_bytes replies.now) ≡ None) }
    ensures err { IfErr result (λ e. e ≡ errors.Unlike → ⊥) }
{
    let mut values = Vec::with_capacity(alloc, replies.len())?;
    for reply in replies {
        values.push(read_reply(alloc, reply.as_str())?)?;
    }
    Ok(values)
}

/// Reads a reply as JSON.
fn read_reply(alloc: Global, reply: &str) -> Result<Value, MergeError>
    ensures ok { IfOk result (λ value. read reply.now ≡ Some (view value)) }
    ensures not_json { IfErr result (λ e. e ≡ errors.NotJson → read reply.now ≡ None) }
    ensures err { IfErr result (λ e. e ≡ errors.Unlike → ⊥) }
{
    match Value::from_str(alloc, reply) {
        Ok(value) => Ok(value),
        Err(e) if e.is_memory() => Err(MergeError::OutOfMemory),
        Err(_) => Err(MergeError::NotJson),
    }
}
