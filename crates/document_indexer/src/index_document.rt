//! The terms of documents, and the lengths of their fields.

ghost use Rattle.std.specs.Prelude.{◌≡◌, IfErr, IfOk, OnOk, true};
ghost use Rattle.definitions.specs.Schema.{field_has, is_indexed};
ghost use Rattle.document_values.specs.Shown.{value_of};
ghost use Rattle.document_indexer.specs.Contexts.{IsReady, Records, Refuses};
ghost use Rattle.document_indexer.specs.FieldLengths.{AreLengths, cut, field_value_len};
ghost use Rattle.document_indexer.specs.Steps.{steps_of, value_steps};

use crate::field_lengths::{add_length, begin_lengths};
use crate::index_value::{index_text, index_value};
use crate::indexing_context::IndexingContext;
use common::Analyzer;
use definitions::Fault;
use document::CompactDoc;
use document_values::CompactDocValue;
use schema::Schema;
use terms::{Field, Type};

/// Records the terms of `doc`, value after value, and sets `lengths` to the lengths of its fields.
pub(crate) fn index_document<A: Analyzer>(
    indexer: &mut IndexingContext,
    schema: &Schema,
    analyzer: &A,
    doc: &CompactDoc,
    lengths: &mut Vec<u32>,
) -> Result<(), Fault>
    requires { IsReady schema.now indexer.old }
    ensures ok { OnOk result (Records schema.now indexer.old indexer.new
        (steps_of schema.now (A.analyze analyzer.now) doc.now)) }
    ensures lengths { OnOk result (AreLengths schema.now (A.analyze analyzer.now) doc.now lengths.new.items) }
    ensures err { IfErr result (Refuses schema.now indexer.old (steps_of schema.now (A.analyze analyzer.now) doc.now)) }
{
    begin_lengths(lengths, schema.num_fields())?;
    for (field, value) in doc.field_values() {
        let len = index_field_value(indexer, schema, analyzer, field, value)?;
        add_length(lengths, field, len);
    }
    Ok(())
}

/// Records the terms of a value, if its field is known and indexed; returns what it adds to the field's length.
fn index_field_value<A: Analyzer>(
    indexer: &mut IndexingContext,
    schema: &Schema,
    analyzer: &A,
    field: Field,
    value: CompactDocValue<'_>,
) -> Result<u32, Fault>
    requires { IsReady schema.now indexer.old }
    ensures ok { OnOk result (Records schema.now indexer.old indexer.new
        (value_steps schema.now (A.analyze analyzer.now) (field, value_of value.entry))) }
    ensures len { field_has is_indexed schema.now field ≡ true
        → IfOk result (λ n. n
        ≡ cut (field_value_len schema.now (A.analyze analyzer.now) (field, value_of value.entry))) }
    ensures err { IfErr result (Refuses schema.now indexer.old
        (value_steps schema.now (A.analyze analyzer.now) (field, value_of value.entry))) }
{
    if field.field_id() as usize >= schema.num_fields() {
        return Ok(0);
    }
    let entry = schema.get_field_entry(field);
    if !entry.is_indexed() {
        return Ok(0);
    }
    match entry.value_type() {
        Type::Str => index_text(indexer, schema, analyzer, field, entry, value),
        _ => {
            index_value(indexer, schema, analyzer, field, entry, value)?;
            Ok(1)
        }
    }
}
