//! The stored values of a document, by the names of their fields.

ghost use Rattle.std.specs.Prelude.{◌++◌, ◌<◌, ◌≡◌, ◌≤◌, IfOk, OnOk, bytes_eq, length, map, option_map, slice_get};
ghost use Rattle.std.specs.List.{find};
ghost use Rattle.definitions.specs.Schema.{max_fields};
ghost use Rattle.definitions.specs.Stored.{stored_values};
ghost use Rattle.document.specs.FieldLists.{lent_lists, lent_values};
ghost use Rattle.document.specs.NamedDocs.{named_list, named_lists, named_of};
ghost use Rattle.document_values.specs.Owned.{owned_values};

use crate::compact_doc::CompactDoc;
use crate::field_lists::field_lists;
use document_values::{CompactDocValue, OwnedValue, stored_value};
use schema::Schema;
use std::alloc::{AllocError, Global};
use std::marker::Model;
use terms::Field;

/// The stored values of a document: each field that has some, by name, in the order of the schema.
#[derive(Drop)]
pub struct NamedDocument {
    fields: Vec<(String, Vec<OwnedValue>)>,
}

impl Model for NamedDocument {
    ghost use Rattle.std.specs.Coded.{codes};
    ghost use Rattle.definitions.specs.Stored.{Named};
    ghost use Rattle.document.specs.NamedDocs.{named_of};
    ghost use Rattle.document_values.specs.ValueCodesLaws.{named_code};

    ghost Value = { Named };

    ghost coded = { named_code (Prim.hlevel codes) };

    ghost view = { λ d. named_of d.fields.items };
}

impl NamedDocument {
    /// Returns the fields with their values, in order.
    pub fn fields(&self) -> &[(String, Vec<OwnedValue>)]
        ensures { named_of result.now ≡ self.now }
    {
        self.fields.as_slice()
    }

    /// Returns the allocator that the fields are held in.
    pub(crate) fn allocator(&self) -> &Global {
        self.fields.allocator()
    }

    /// Returns the values of the field `name`, or `None` where the document has none.
    pub fn get(&self, name: &str) -> Option<&[OwnedValue]>
        ensures { option_map (λ values. owned_values values.now) result
            ≡ option_map (λ f. f.1) (find (λ f. bytes_eq f.0 name.now) self.now) }
    {
        for field in &self.fields {
            if field.0.as_str() == name {
                return Some(field.1.as_slice());
            }
        }
        None
    }
}

impl CompactDoc {
    /// Returns the stored values by the names of their fields, each pre-tokenised text as a text. Values of fields that
    /// the schema doesn't have are left out.
    pub fn to_named_doc(&self, alloc: Global, schema: &Schema) -> Result<NamedDocument, AllocError>
        ensures { IfOk result (λ named. named ≡ stored_values schema.now self.now) }
    {
        let lists = field_lists(alloc, schema, self)?;
        let fields = named(alloc, schema, lists)?;
        Ok(NamedDocument { fields })
    }
}

/// Returns the lists that aren't empty, with the names of their fields.
fn named(
    alloc: Global,
    schema: &Schema,
    lists: Vec<Vec<CompactDocValue<'_>>>,
) -> Result<Vec<(String, Vec<OwnedValue>)>, AllocError>
    requires each { length lists.items ≡ length schema.now }
    requires few { length schema.now ≤ max_fields }
    ensures { IfOk result (λ fields. named_of fields.items ≡ named_lists schema.now (lent_lists lists.entry.items)) }
{
    let mut fields = Vec::new(alloc);
    let mut field = 0;
    for values in lists {
        push_named(
            alloc,
            schema,
            Field::from_field_id(field),
            values,
            &mut fields,
        )?;
        field += 1;
    }
    Ok(fields)
}

/// Appends the name of `field` with its `values`, where it has some.
fn push_named(
    alloc: Global,
    schema: &Schema,
    field: Field,
    values: Vec<CompactDocValue<'_>>,
    fields: &mut Vec<(String, Vec<OwnedValue>)>,
) -> Result<(), AllocError>
    requires { field < length schema.now }
    ensures { OnOk result (named_of fields.new.items
        ≡ named_of fields.old.items ++ named_list (slice_get schema.now field) (lent_values values.entry.items)) }
{
    if values.is_empty() {
        return Ok(());
    }
    let name = String::from_str(alloc, schema.get_field_name(field))?;
    Ok(fields.push((name, copies(alloc, values)?))?)
}

/// Copies the values, pre-tokenised texts as texts.
fn copies(alloc: Global, values: Vec<CompactDocValue<'_>>) -> Result<Vec<OwnedValue>, AllocError>
    ensures { IfOk result (λ owned. owned_values owned.items ≡ lent_values values.entry.items) }
{
    let mut owned = Vec::with_capacity(alloc, values.len())?;
    for value in values {
        owned.push(stored_value(alloc, value)?)?;
    }
    Ok(owned)
}
