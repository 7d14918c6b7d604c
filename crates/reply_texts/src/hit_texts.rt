//! The reply to a search, encoded as a text.

ghost use Rattle.std.specs.Prelude.{◌++◌, ◌≡◌, IfOk, List, OnOk, map, string_bytes};
ghost use Rattle.definitions.specs.Replies as definitions;
ghost use Rattle.definitions.specs.Scanning as scanning;
ghost use Rattle.json.specs.Tree.{json_tokens};
ghost use Rattle.reply_texts.specs.ToldHits.{told};
ghost use Rattle.segment_search.specs.Hits.{scored, shown_hit};
ghost use Rattle.serde_json.specs.Data.{array};
ghost use Rattle.serde_json.specs.Written.{outline};

use json::Writer;
use schema::Schema;
use segment_search::StoredHit;
use std::alloc::{AllocError, Global};

/// Encodes the reply to a search, hit by hit. A score is not negative.
pub fn hits_text(alloc: Global, schema: &Schema, hits: &[StoredHit]) -> Result<String, AllocError>
    ensures scored { (hs : List scanning.Hit) → map (shown_hit schema.now) hits.now ≡ map scored hs
        → IfOk result (λ text. string_bytes text ≡ definitions.reply_of (definitions.hits_reply hs)) }
    ensures told { IfOk result (λ text. string_bytes text
        ≡ definitions.reply_of (definitions.hits_reply (map told (map (shown_hit schema.now) hits.now)))) }
{
    let mut out = Writer::new(Vec::new(alloc));
    write_reply(alloc, schema, hits, &mut out)?;
    // What the writer holds is UTF-8.
    Ok(unsafe { String::from_utf8_unchecked(out.into_inner()) })
}

/// Writes the reply to a search.
fn write_reply(
    alloc: Global,
    schema: &Schema,
    hits: &[StoredHit],
    out: &mut Writer,
) -> Result<(), AllocError>
    ensures ok { OnOk result (out.new.tokens ≡ out.old.tokens
        ++ json_tokens (outline (definitions.hits_reply (map told (map (shown_hit schema.now) hits.now))))) }
    ensures before { out.new.before ≡ out.old.before }
{
    out.begin_object()?;
    out.key("hits")?;
    write_hits(alloc, schema, hits, out)?;
    out.end_object()?;
    Ok(())
}

/// Writes the hits as one list.
fn write_hits(
    alloc: Global,
    schema: &Schema,
    hits: &[StoredHit],
    out: &mut Writer,
) -> Result<(), AllocError>
    ensures ok { OnOk result (out.new.tokens ≡ out.old.tokens
        ++ json_tokens (outline (array (definitions.hits_data (map told (map (shown_hit schema.now) hits.now)))))) }
    ensures before { out.new.before ≡ out.old.before }
{
    out.begin_array()?;
    for hit in hits {
        write_hit(alloc, schema, hit, out)?;
    }
    out.end_array()?;
    Ok(())
}

/// Writes a hit's document and its score.
fn write_hit(
    alloc: Global,
    schema: &Schema,
    hit: &StoredHit,
    out: &mut Writer,
) -> Result<(), AllocError>
    ensures ok { OnOk result (out.new.tokens
        ≡ out.old.tokens ++ json_tokens (outline (definitions.hit_data (told (shown_hit schema.now hit.now))))) }
    ensures before { out.new.before ≡ out.old.before }
{
    out.begin_object()?;
    out.key("doc")?;
    hit.doc.write_json(alloc, schema, out)?;
    out.key("score")?;
    out.u64(hit.score.unsigned_abs())?;
    out.end_object()?;
    Ok(())
}
