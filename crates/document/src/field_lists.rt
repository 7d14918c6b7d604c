//! The stored values of a document, a list for each field of a schema, borrowed.

ghost use Rattle.std.specs.Prelude.{◌<◌, ◌≡◌, ◌≤◌, IfOk, OnOk, length};
ghost use Rattle.definitions.specs.Schema.{max_fields};
ghost use Rattle.definitions.specs.Stored.{plain, stored_pairs};
ghost use Rattle.document.specs.FieldLists.{lent_lists};
ghost use Rattle.document.specs.NamedDocs.{no_lists, put_all, put_at};
ghost use Rattle.document_values.specs.Shown.{value_of};

use crate::compact_doc::CompactDoc;
use crate::serialize::is_stored;
use document_values::CompactDocValue;
use schema::Schema;
use std::alloc::{AllocError, Global};
use terms::Field;

/// Lends the stored values of `doc`: a list for each field of the schema, in order.
pub(crate) fn field_lists<'a>(
    alloc: Global,
    schema: &Schema,
    doc: &'a CompactDoc,
) -> Result<Vec<Vec<CompactDocValue<'a>>>, AllocError>
    ensures few { length schema.now ≤ max_fields }
    ensures len { IfOk result (λ lists. length lists.items ≡ length schema.now) }
    ensures lists { IfOk result (λ lists. lent_lists lists.items
        ≡ put_all (stored_pairs schema.now doc.now) (no_lists (length schema.now))) }
{
    let mut lists = empty_lists(alloc, schema.num_fields())?;
    put_stored(schema, doc, &mut lists)?;
    Ok(lists)
}

/// Returns `count` empty lists.
fn empty_lists<'a>(alloc: Global, count: usize) -> Result<Vec<Vec<CompactDocValue<'a>>>, AllocError>
    ensures len { IfOk result (λ lists. length lists.items ≡ count) }
    ensures lists { IfOk result (λ lists. lent_lists lists.items ≡ no_lists count) }
{
    let mut lists = Vec::with_capacity(alloc, count)?;
    while lists.len() < count {
        lists.push(Vec::new(alloc))?;
    }
    Ok(lists)
}

/// Appends each stored value to its field's list, of which there is one for each field of the schema.
fn put_stored<'a>(
    schema: &Schema,
    doc: &'a CompactDoc,
    lists: &mut Vec<Vec<CompactDocValue<'a>>>,
) -> Result<(), AllocError>
    requires { length lists.old.items ≡ length schema.now }
    ensures len { OnOk result (length lists.new.items ≡ length schema.now) }
    ensures lists { OnOk result (lent_lists lists.new.items
        ≡ put_all (stored_pairs schema.now doc.now) (lent_lists lists.old.items)) }
{
    for (field, value) in doc.field_values() {
        if is_stored(schema, field) {
            put(lists, field, value)?;
        }
    }
    Ok(())
}

/// Appends `value` to the list of `field`.
#[tactic(auto, using(crate::proofs::NamedParts::put_set))]
fn put<'a>(
    lists: &mut Vec<Vec<CompactDocValue<'a>>>,
    field: Field,
    value: CompactDocValue<'a>,
) -> Result<(), AllocError>
    requires { field < length lists.old.items }
    ensures len { length lists.new.items ≡ length lists.old.items }
    ensures lists { OnOk result (lent_lists lists.new.items
        ≡ put_at field (plain (value_of value.entry)) (lent_lists lists.old.items)) }
{
    Ok(lists[field.field_id() as usize].push(value)?)
}
