//! The terms of JSON fields.

ghost use Rattle.std.specs.Prelude.{[], ◌++◌, ◌∷◌, ◌≡◌, IfErr, OnOk, if◌then◌else◌, map};
ghost use Rattle.definitions.specs.JsonLeaves.{has_zero, leaves, members_leaves, values_leaves};
ghost use Rattle.definitions.specs.Schema.{json_kind};
ghost use Rattle.definitions.specs.Terms.{path_of_keys};
ghost use Rattle.definitions.specs.Values.{u64};
ghost use Rattle.document_values.specs.Shown.{value_of};
ghost use Rattle.layouts.specs.DocumentReading.{to_members, to_values};
ghost use Rattle.document_indexer.specs.Contexts.{CanIndex, Records, Refuses};
ghost use Rattle.document_indexer.specs.Steps.{fast_steps, leaves_steps, plain_leaf_steps};

use crate::indexing_context::IndexingContext;
use crate::json_field::JsonField;
use common::Analyzer;
use definitions::Fault;
use document_values::{CompactDocArrayIter, CompactDocObjectIter, CompactDocValue};
use schema::{FieldEntry, Schema};
use terms::{FastValue, Field, has_zero};

/// Records the terms of a value of a JSON field: for each leaf those on its path.
pub(crate) fn index_json<A: Analyzer>(
    indexer: &mut IndexingContext,
    schema: &Schema,
    analyzer: &A,
    field: Field,
    entry: &FieldEntry,
    value: CompactDocValue<'_>,
) -> Result<(), Fault>
    requires { CanIndex schema.now indexer.old field json_kind }
    ensures ok { OnOk result (Records schema.now indexer.old indexer.new
        (leaves_steps (A.analyze analyzer.now) field entry.now.tokenizer
        (leaves entry.now.expand_dots [] (value_of value.entry)))) }
    ensures err { IfErr result (Refuses schema.now indexer.old
        (leaves_steps (A.analyze analyzer.now) field entry.now.tokenizer
        (leaves entry.now.expand_dots [] (value_of value.entry)))) }
{
    let json_field = JsonField {
        schema,
        field,
        tokenizer: entry.tokenizer(),
        expand_dots: entry.is_expand_dots_enabled(),
    };
    let mut keys = Vec::new(indexer.alloc());
    index_leaves(indexer, analyzer, &json_field, &mut keys, value)
}

/// Records the terms of `value` at `keys`.
#[cycle(leaves)]
fn index_leaves<'a, A: Analyzer>(
    indexer: &mut IndexingContext,
    analyzer: &A,
    json_field: &JsonField<'_>,
    keys: &mut Vec<&'a str>,
    value: CompactDocValue<'a>,
) -> Result<(), Fault>
    requires { CanIndex json_field.now.schema.now indexer.old json_field.now.field json_kind }
    ensures keys { OnOk result (keys.new.items ≡ keys.old.items) }
    ensures ok { OnOk result (Records json_field.now.schema.now indexer.old indexer.new
        (leaves_steps (A.analyze analyzer.now) json_field.now.field json_field.now.tokenizer.now
        (leaves json_field.now.expand_dots (map (λ k. k.now) keys.old.items) (value_of value.entry)))) }
    ensures err { IfErr result (Refuses json_field.now.schema.now indexer.old
        (leaves_steps (A.analyze analyzer.now) json_field.now.field json_field.now.tokenizer.now
        (leaves json_field.now.expand_dots (map (λ k. k.now) keys.old.items) (value_of value.entry)))) }
{
    match value {
        CompactDocValue::Str(text) => indexer.index_path_text(analyzer, json_field, keys, text),
        CompactDocValue::U64(n) => index_whole_number(indexer, json_field, keys, n),
        CompactDocValue::I64(n) => index_fast_value(indexer, json_field, keys, n),
        CompactDocValue::Bool(b) => index_fast_value(indexer, json_field, keys, b),
        CompactDocValue::Date(time) => index_fast_value(indexer, json_field, keys, time),
        CompactDocValue::Array(values) => {
            index_values(indexer, analyzer, json_field, keys, values)
        }
        CompactDocValue::Object(members) => {
            index_members(indexer, analyzer, json_field, keys, members)
        }
        CompactDocValue::Null
        | CompactDocValue::PreTokStr(_)
        | CompactDocValue::Facet(_)
        | CompactDocValue::Bytes(_)
        | CompactDocValue::IpAddr(_) => Ok(()),
    }
}

/// Records the terms of `values`, all at `keys`.
#[cycle(leaves)]
fn index_values<'a, A: Analyzer>(
    indexer: &mut IndexingContext,
    analyzer: &A,
    json_field: &JsonField<'_>,
    keys: &mut Vec<&'a str>,
    values: CompactDocArrayIter<'a>,
) -> Result<(), Fault>
    requires { CanIndex json_field.now.schema.now indexer.old json_field.now.field json_kind }
    ensures keys { OnOk result (keys.new.items ≡ keys.old.items) }
    ensures ok { OnOk result (Records json_field.now.schema.now indexer.old indexer.new
        (leaves_steps (A.analyze analyzer.now) json_field.now.field json_field.now.tokenizer.now
        (values_leaves json_field.now.expand_dots (map (λ k. k.now) keys.old.items) (to_values values.entry)))) }
    ensures err { IfErr result (Refuses json_field.now.schema.now indexer.old
        (leaves_steps (A.analyze analyzer.now) json_field.now.field json_field.now.tokenizer.now
        (values_leaves json_field.now.expand_dots (map (λ k. k.now) keys.old.items) (to_values values.entry)))) }
{
    for value in values {
        index_leaves(indexer, analyzer, json_field, keys, value)?;
    }
    Ok(())
}

/// Records the terms of `members`, each at its own key after `keys`.
#[cycle(leaves)]
fn index_members<'a, A: Analyzer>(
    indexer: &mut IndexingContext,
    analyzer: &A,
    json_field: &JsonField<'_>,
    keys: &mut Vec<&'a str>,
    members: CompactDocObjectIter<'a>,
) -> Result<(), Fault>
    requires { CanIndex json_field.now.schema.now indexer.old json_field.now.field json_kind }
    ensures keys { OnOk result (keys.new.items ≡ keys.old.items) }
    ensures ok { OnOk result (Records json_field.now.schema.now indexer.old indexer.new
        (leaves_steps (A.analyze analyzer.now) json_field.now.field json_field.now.tokenizer.now
        (members_leaves json_field.now.expand_dots (map (λ k. k.now) keys.old.items) (to_members members.entry)))) }
    ensures err { IfErr result (Refuses json_field.now.schema.now indexer.old
        (leaves_steps (A.analyze analyzer.now) json_field.now.field json_field.now.tokenizer.now
        (members_leaves json_field.now.expand_dots (map (λ k. k.now) keys.old.items) (to_members members.entry)))) }
{
    for (key, value) in members {
        index_member(indexer, analyzer, json_field, keys, key, value)?;
    }
    Ok(())
}

/// Records the terms of a member; none if its key has U+0000.
#[cycle(leaves)]
fn index_member<'a, A: Analyzer>(
    indexer: &mut IndexingContext,
    analyzer: &A,
    json_field: &JsonField<'_>,
    keys: &mut Vec<&'a str>,
    key: &'a str,
    value: CompactDocValue<'a>,
) -> Result<(), Fault>
    requires { CanIndex json_field.now.schema.now indexer.old json_field.now.field json_kind }
    ensures keys { OnOk result (keys.new.items ≡ keys.old.items) }
    ensures ok { OnOk result (Records json_field.now.schema.now indexer.old indexer.new
        (leaves_steps (A.analyze analyzer.now) json_field.now.field json_field.now.tokenizer.now
        (if has_zero key.now then [] else leaves json_field.now.expand_dots
        (map (λ k. k.now) keys.old.items ++ (key.now ∷ [])) (value_of value.entry)))) }
    ensures err { IfErr result (Refuses json_field.now.schema.now indexer.old
        (leaves_steps (A.analyze analyzer.now) json_field.now.field json_field.now.tokenizer.now
        (if has_zero key.now then [] else leaves json_field.now.expand_dots
        (map (λ k. k.now) keys.old.items ++ (key.now ∷ [])) (value_of value.entry)))) }
{
    if has_zero(key) {
        return Ok(());
    }
    keys.push(key)?;
    index_leaves(indexer, analyzer, json_field, keys, value)?;
    keys.pop();
    Ok(())
}

/// Records `n` at `keys`, as an i64 if it fits.
fn index_whole_number(
    indexer: &mut IndexingContext,
    json_field: &JsonField<'_>,
    keys: &[&str],
    n: u64,
) -> Result<(), Fault>
    requires { CanIndex json_field.now.schema.now indexer.old json_field.now.field json_kind }
    ensures ok { OnOk result (Records json_field.now.schema.now indexer.old indexer.new
        (plain_leaf_steps json_field.now.field (
          path_of_keys json_field.now.expand_dots (map (λ k. k.now) keys.now),
          u64 n,
        ))) }
    ensures err { IfErr result (Refuses json_field.now.schema.now indexer.old
        (plain_leaf_steps json_field.now.field (
          path_of_keys json_field.now.expand_dots (map (λ k. k.now) keys.now),
          u64 n,
        ))) }
{
    if n < 1 << 63 {
        index_fast_value(indexer, json_field, keys, n as i64)
    } else {
        index_fast_value(indexer, json_field, keys, n)
    }
}

/// Records a value of eight bytes at `keys`.
fn index_fast_value<T: FastValue>(
    indexer: &mut IndexingContext,
    json_field: &JsonField<'_>,
    keys: &[&str],
    value: T,
) -> Result<(), Fault>
    requires { CanIndex json_field.now.schema.now indexer.old json_field.now.field json_kind }
    ensures ok { OnOk result (Records json_field.now.schema.now indexer.old indexer.new
        (fast_steps json_field.now.field (path_of_keys json_field.now.expand_dots (map (λ k. k.now) keys.now)) T.kind
        (T.value value))) }
    ensures err { IfErr result (Refuses json_field.now.schema.now indexer.old
        (fast_steps json_field.now.field (path_of_keys json_field.now.expand_dots (map (λ k. k.now) keys.now)) T.kind
        (T.value value))) }
{
    let bytes = value.to_u64().to_be_bytes();
    indexer.index_leaf(json_field, keys, T::to_type(), &bytes)
}
