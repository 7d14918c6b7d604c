//! The terms of facets.

ghost use Rattle.std.specs.Prelude.{◌≡◌, IfErr, OnOk};
ghost use Rattle.definitions.specs.Schema.{facet_kind};
ghost use Rattle.definitions.specs.Values.{facet};
ghost use Rattle.document_values.specs.Shown.{value_of};
ghost use Rattle.layouts.specs.DocumentReading.{steps_in};
ghost use Rattle.document_indexer.specs.Contexts.{CanIndex, Records, Refuses};
ghost use Rattle.document_indexer.specs.Steps.{facet_steps};

use crate::indexing_context::IndexingContext;
use definitions::Fault;
use document_values::CompactDocValue;
use schema::Schema;
use terms::{FACET_SEP_BYTE, Field, Type};

/// Records the terms of all prefixes of a facet's steps, the empty one included.
pub(crate) fn index_facet(
    indexer: &mut IndexingContext,
    schema: &Schema,
    field: Field,
    value: CompactDocValue<'_>,
) -> Result<(), Fault>
    requires { CanIndex schema.now indexer.old field facet_kind }
    ensures ok { OnOk result (Records schema.now indexer.old indexer.new (facet_steps field (value_of value.entry))) }
    ensures err { IfErr result (Refuses schema.now indexer.old (facet_steps field (value_of value.entry))) }
{
    match value {
        CompactDocValue::Facet(text) => index_prefixes(indexer, schema, field, text),
        _ => Ok(()),
    }
}

/// Records the empty prefix, the text before each separator, and then the whole text.
fn index_prefixes(
    indexer: &mut IndexingContext,
    schema: &Schema,
    field: Field,
    text: &str,
) -> Result<(), Fault>
    requires { CanIndex schema.now indexer.old field facet_kind }
    ensures ok { OnOk result (Records schema.now indexer.old indexer.new
        (facet_steps field (facet (steps_in text.now)))) }
    ensures err { IfErr result (Refuses schema.now indexer.old (facet_steps field (facet (steps_in text.now)))) }
{
    let bytes = text.as_bytes();
    indexer.index_term(schema, field, Type::Facet, &[])?;
    for end in 0..bytes.len() {
        if bytes[end] == FACET_SEP_BYTE {
            indexer.index_term(schema, field, Type::Facet, &bytes[..end])?;
        }
    }
    indexer.index_term(schema, field, Type::Facet, bytes)
}
