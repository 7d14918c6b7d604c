//! Replies to a search.

ghost use Rattle.std.specs.Prelude.{◌≡◌, false, IfOk, OnOk, map, option_map, string_bytes};
ghost use Rattle.definitions.specs.Json.{each, list_of};
ghost use Rattle.serde_json.specs.View.{items_view, view};
ghost use Rattle.serde_json.specs.Written.{compact_text, has_float};
ghost use Rattle.shards.specs.Hits.{hits_of};
ghost use Rattle.shards.specs.Replies as words;

use schema::has_only;
use serde_json::{Value, json};
use std::alloc::{AllocError, Global};

/// A hit and its score.
pub(crate) type Scored<'a> = (u64, &'a Value);

/// Lists the hits of replies to a search, one reply behind the other; `None` if one is no such reply.
pub(crate) fn all_hits(
    alloc: Global,
    replies: &[Value],
) -> Result<Option<Vec<Scored<'_>>>, AllocError>
    ensures { IfOk result (λ found. option_map (λ hits. hits_of hits.items) found
        ≡ option_map words.joined (words.each_of words.hits_in (map view replies.now))) }
{
    let mut all = Vec::new(alloc);
    for reply in replies {
        let Some(mut hits) = hits_in(alloc, reply)? else {
            return Ok(None);
        };
        all.append(&mut hits)?;
    }
    Ok(Some(all))
}

/// Lists the hits that the reply to a search tells.
fn hits_in(alloc: Global, reply: &Value) -> Result<Option<Vec<Scored<'_>>>, AllocError>
    ensures { IfOk result (λ found. option_map (λ hits. hits_of hits.items) found ≡ words.hits_in (view reply.now)) }
{
    if !has_only(reply, &["hits"]) {
        return Ok(None);
    }
    match reply.get("hits") {
        Some(list) => scored_list(alloc, list),
        None => Ok(None),
    }
}

/// Lists the hits of an array.
fn scored_list(alloc: Global, list: &Value) -> Result<Option<Vec<Scored<'_>>>, AllocError>
    ensures { IfOk result (λ found. option_map (λ hits. hits_of hits.items) found
        ≡ list_of words.scored (view list.now)) }
{
    match list {
        Value::Array(items) => scored_items(alloc, items.as_slice()),
        _ => Ok(None),
    }
}

/// Lists hits with their scores; `None` if one has no score.
fn scored_items(alloc: Global, items: &[Value]) -> Result<Option<Vec<Scored<'_>>>, AllocError>
    ensures { IfOk result (λ found. option_map (λ hits. hits_of hits.items) found
        ≡ each words.scored (items_view items.now)) }
{
    let mut hits = Vec::with_capacity(alloc, items.len())?;
    for item in items {
        let Some(score) = item.get("score").and_then(Value::as_u64) else {
            return Ok(None);
        };
        hits.push((score, item))?;
    }
    Ok(Some(hits))
}

/// Puts `hits` by score, those of equal scores in the order in which they stand, and keeps the best `k`.
pub(crate) fn keep_best(hits: &mut Vec<Scored<'_>>, k: usize) -> Result<(), AllocError>
    ensures { OnOk result (hits_of hits.new.items ≡ words.best_of k (hits_of hits.old.items)) }
{
    hits.sort_by(|a, b| b.0.cmp(&a.0))?;
    hits.truncate(k);
    Ok(())
}

/// Encodes the reply that tells `hits`.
pub(crate) fn hits_text(alloc: Global, hits: &[Scored<'_>]) -> Result<String, AllocError>
    ensures { IfOk result (λ text. has_float (words.hits_told (hits_of hits.now)) ≡ false
        → string_bytes text ≡ compact_text (words.hits_told (hits_of hits.now))) }
{
    hits_json(alloc, hits)?.to_string(alloc)
}

/// Returns the reply that tells `hits` as JSON.
fn hits_json(alloc: Global, hits: &[Scored<'_>]) -> Result<Value, AllocError>
    ensures { IfOk result (λ json. view json ≡ words.hits_told (hits_of hits.now)) }
{
    let list = Value::Array(copies_of(alloc, hits)?);
    json!(in alloc; {"hits": list})
}

/// Copies hits, without their scores.
fn copies_of(alloc: Global, hits: &[Scored<'_>]) -> Result<Vec<Value>, AllocError>
    ensures { IfOk result (λ copies. map view copies.items ≡ map (λ h. h.1) (hits_of hits.now)) }
{
    let mut copies = Vec::with_capacity(alloc, hits.len())?;
    for hit in hits {
        copies.push(hit.1.clone()?)?;
    }
    Ok(copies)
}
