//! The terms of values, by the types of their fields.

ghost use Rattle.std.specs.Prelude.{◌≡◌, IfErr, IfOk, OnOk, false};
ghost use Rattle.definitions.specs.Schema.{bool_kind, bytes_kind, date_kind, i64_kind, ip_addr_kind, is_text, text_kind, u64_kind};
ghost use Rattle.document_values.specs.Shown.{value_of};
ghost use Rattle.document_indexer.specs.Contexts.{CanIndex, Records, Refuses};
ghost use Rattle.document_indexer.specs.FieldLengths.{cut, num_tokens};
ghost use Rattle.document_indexer.specs.Steps.{kind_steps, plain_steps, text_steps};

use crate::index_facet::index_facet;
use crate::index_json::index_json;
use crate::indexing_context::IndexingContext;
use common::Analyzer;
use definitions::Fault;
use document_values::CompactDocValue;
use schema::{FieldEntry, Schema};
use terms::{FastValue, Field, Type};

/// Records the terms of a value of an indexed field that isn't of texts.
pub(crate) fn index_value<A: Analyzer>(
    indexer: &mut IndexingContext,
    schema: &Schema,
    analyzer: &A,
    field: Field,
    entry: &FieldEntry,
    value: CompactDocValue<'_>,
) -> Result<(), Fault>
    requires can { CanIndex schema.now indexer.old field entry.now.kind }
    requires other { is_text entry.now.kind ≡ false }
    ensures ok { OnOk result (Records schema.now indexer.old indexer.new
        (kind_steps entry.now.kind (A.analyze analyzer.now) field entry.now (value_of value.entry))) }
    ensures err { IfErr result (Refuses schema.now indexer.old
        (kind_steps entry.now.kind (A.analyze analyzer.now) field entry.now (value_of value.entry))) }
{
    match entry.value_type() {
        Type::Str => Ok(()),
        Type::Json => index_json(indexer, schema, analyzer, field, entry, value),
        Type::Facet => index_facet(indexer, schema, field, value),
        Type::U64 => index_u64(indexer, schema, field, value),
        Type::I64 => index_i64(indexer, schema, field, value),
        Type::Bool => index_bool(indexer, schema, field, value),
        Type::Date => index_date(indexer, schema, field, value),
        Type::Bytes => index_bytes(indexer, schema, field, value),
        Type::IpAddr => index_ip_addr(indexer, schema, field, value),
    }
}

/// Records the tokens of a text, and returns how many were kept. A pre-tokenised text has its own.
pub(crate) fn index_text<A: Analyzer>(
    indexer: &mut IndexingContext,
    schema: &Schema,
    analyzer: &A,
    field: Field,
    entry: &FieldEntry,
    value: CompactDocValue<'_>,
) -> Result<u32, Fault>
    requires { CanIndex schema.now indexer.old field text_kind }
    ensures ok { OnOk result (Records schema.now indexer.old indexer.new
        (text_steps (A.analyze analyzer.now) field entry.now (value_of value.entry))) }
    ensures num_tokens { IfOk result (λ n. n
        ≡ cut (num_tokens (A.analyze analyzer.now) entry.now.tokenizer (value_of value.entry))) }
    ensures err { IfErr result (Refuses schema.now indexer.old
        (text_steps (A.analyze analyzer.now) field entry.now (value_of value.entry))) }
{
    match value {
        CompactDocValue::Str(text) => {
            indexer.index_text(
                schema,
                analyzer,
                field,
                entry.tokenizer(),
                entry.gap(),
                text,
            )
        }
        CompactDocValue::PreTokStr(text) => {
            let owned = text.to_pre_tokenized_string(indexer.alloc())?;
            indexer.index_tokens(schema, field, entry.gap(), owned.tokens())
        }
        _ => Ok(0),
    }
}

/// Records a number from 0 below 2^64.
fn index_u64(
    indexer: &mut IndexingContext,
    schema: &Schema,
    field: Field,
    value: CompactDocValue<'_>,
) -> Result<(), Fault>
    requires { CanIndex schema.now indexer.old field u64_kind }
    ensures ok { OnOk result (Records schema.now indexer.old indexer.new
        (plain_steps u64_kind field (value_of value.entry))) }
    ensures err { IfErr result (Refuses schema.now indexer.old (plain_steps u64_kind field (value_of value.entry))) }
{
    match value {
        CompactDocValue::U64(n) => index_fast_value(indexer, schema, field, n),
        _ => Ok(()),
    }
}

/// Records a number from -2^63 below 2^63.
fn index_i64(
    indexer: &mut IndexingContext,
    schema: &Schema,
    field: Field,
    value: CompactDocValue<'_>,
) -> Result<(), Fault>
    requires { CanIndex schema.now indexer.old field i64_kind }
    ensures ok { OnOk result (Records schema.now indexer.old indexer.new
        (plain_steps i64_kind field (value_of value.entry))) }
    ensures err { IfErr result (Refuses schema.now indexer.old (plain_steps i64_kind field (value_of value.entry))) }
{
    match value {
        CompactDocValue::I64(n) => index_fast_value(indexer, schema, field, n),
        _ => Ok(()),
    }
}

/// Records true or false.
fn index_bool(
    indexer: &mut IndexingContext,
    schema: &Schema,
    field: Field,
    value: CompactDocValue<'_>,
) -> Result<(), Fault>
    requires { CanIndex schema.now indexer.old field bool_kind }
    ensures ok { OnOk result (Records schema.now indexer.old indexer.new
        (plain_steps bool_kind field (value_of value.entry))) }
    ensures err { IfErr result (Refuses schema.now indexer.old (plain_steps bool_kind field (value_of value.entry))) }
{
    match value {
        CompactDocValue::Bool(b) => index_fast_value(indexer, schema, field, b),
        _ => Ok(()),
    }
}

/// Records a point of time, cut to whole seconds.
fn index_date(
    indexer: &mut IndexingContext,
    schema: &Schema,
    field: Field,
    value: CompactDocValue<'_>,
) -> Result<(), Fault>
    requires { CanIndex schema.now indexer.old field date_kind }
    ensures ok { OnOk result (Records schema.now indexer.old indexer.new
        (plain_steps date_kind field (value_of value.entry))) }
    ensures err { IfErr result (Refuses schema.now indexer.old (plain_steps date_kind field (value_of value.entry))) }
{
    match value {
        CompactDocValue::Date(time) => index_fast_value(indexer, schema, field, time),
        _ => Ok(()),
    }
}

/// Records a byte string.
fn index_bytes(
    indexer: &mut IndexingContext,
    schema: &Schema,
    field: Field,
    value: CompactDocValue<'_>,
) -> Result<(), Fault>
    requires { CanIndex schema.now indexer.old field bytes_kind }
    ensures ok { OnOk result (Records schema.now indexer.old indexer.new
        (plain_steps bytes_kind field (value_of value.entry))) }
    ensures err { IfErr result (Refuses schema.now indexer.old (plain_steps bytes_kind field (value_of value.entry))) }
{
    match value {
        CompactDocValue::Bytes(bytes) => indexer.index_term(schema, field, Type::Bytes, bytes),
        _ => Ok(()),
    }
}

/// Records an IP address.
fn index_ip_addr(
    indexer: &mut IndexingContext,
    schema: &Schema,
    field: Field,
    value: CompactDocValue<'_>,
) -> Result<(), Fault>
    requires { CanIndex schema.now indexer.old field ip_addr_kind }
    ensures ok { OnOk result (Records schema.now indexer.old indexer.new
        (plain_steps ip_addr_kind field (value_of value.entry))) }
    ensures err { IfErr result (Refuses schema.now indexer.old
        (plain_steps ip_addr_kind field (value_of value.entry))) }
{
    match value {
        CompactDocValue::IpAddr(bits) => {
            indexer.index_term(schema, field, Type::IpAddr, &bits.to_be_bytes())
        }
        _ => Ok(()),
    }
}

/// Records a value of eight bytes.
fn index_fast_value<T: FastValue>(
    indexer: &mut IndexingContext,
    schema: &Schema,
    field: Field,
    value: T,
) -> Result<(), Fault>
    requires { CanIndex schema.now indexer.old field T.kind }
    ensures ok { OnOk result (Records schema.now indexer.old indexer.new (plain_steps T.kind field (T.value value))) }
    ensures err { IfErr result (Refuses schema.now indexer.old (plain_steps T.kind field (T.value value))) }
{
    indexer.index_term(schema, field, T::to_type(), &value.to_u64().to_be_bytes())
}
