//! Documents as JSON: the stored values by the names of their fields.

ghost use Rattle.std.specs.Prelude.{◌++◌, ◌≡◌, ◌≤◌, IfOk, OnOk, length, string_bytes};
ghost use Rattle.definitions.specs.Printed.{printed_fields, printed_list, printed_named};
ghost use Rattle.definitions.specs.Schema.{max_fields};
ghost use Rattle.definitions.specs.Stored.{stored_values};
ghost use Rattle.document.specs.FieldLists.{lent_fields, lent_lists, lent_values};
ghost use Rattle.document.specs.NamedDocs.{named_lists};
ghost use Rattle.json.specs.Tree.{json_tokens};
ghost use Rattle.serde_json.specs.Data.{array, object};
ghost use Rattle.serde_json.specs.Written.{compact_text, outline};

use crate::compact_doc::CompactDoc;
use crate::field_lists::field_lists;
use document_values::{CompactDocValue, write_value};
use json::Writer;
use schema::Schema;
use std::alloc::{AllocError, Global};
use std::collections::BTreeMap;
use terms::Field;

impl CompactDoc {
    /// Returns the stored values as the text of one JSON object without spaces: field names as keys, in the order of
    /// their bytes, with a list of values for each.
    pub fn to_json(&self, alloc: Global, schema: &Schema) -> Result<String, AllocError>
        ensures { IfOk result (λ text. string_bytes text
            ≡ compact_text (printed_named (stored_values schema.now self.now))) }
    {
        let mut out = Writer::new(Vec::new(alloc));
        self.write_json(alloc, schema, &mut out)?;
        // What the writer holds is UTF-8.
        Ok(unsafe { String::from_utf8_unchecked(out.into_inner()) })
    }

    /// Writes the stored values as `to_json` prints them.
    pub fn write_json(
        &self,
        alloc: Global,
        schema: &Schema,
        out: &mut Writer,
    ) -> Result<(), AllocError>
        ensures ok { OnOk result (out.new.tokens
            ≡ out.old.tokens ++ json_tokens (outline (printed_named (stored_values schema.now self.now)))) }
        ensures before { out.new.before ≡ out.old.before }
    {
        let lists = field_lists(alloc, schema, self)?;
        write_fields(alloc, by_name(alloc, schema, lists)?, out)
    }
}

/// Sorts the lists that aren't empty by the names of their fields.
fn by_name<'s, 'a>(
    alloc: Global,
    schema: &'s Schema,
    lists: Vec<Vec<CompactDocValue<'a>>>,
) -> Result<BTreeMap<&'s str, Vec<CompactDocValue<'a>>>, AllocError>
    requires each { length lists.items ≡ length schema.now }
    requires few { length schema.now ≤ max_fields }
    ensures { IfOk result (λ fields. lent_fields fields.entries
        ≡ printed_fields (named_lists schema.now (lent_lists lists.entry.items))) }
{
    let mut left = lists;
    let mut fields = BTreeMap::new(alloc);
    while let Some(values) = left.pop() {
        if !values.is_empty() {
            let field = Field::from_field_id(left.len() as u32);
            drop(fields.insert(schema.get_field_name(field), values)?);
        }
    }
    Ok(fields)
}

/// Writes the fields as one object, each with the list of its values.
fn write_fields(
    alloc: Global,
    fields: BTreeMap<&str, Vec<CompactDocValue<'_>>>,
    out: &mut Writer,
) -> Result<(), AllocError>
    ensures ok { OnOk result (out.new.tokens
        ≡ out.old.tokens ++ json_tokens (outline (object (lent_fields fields.entry.entries)))) }
    ensures before { out.new.before ≡ out.old.before }
{
    out.begin_object()?;
    for (name, values) in fields {
        out.key(name)?;
        write_list(alloc, values, out)?;
    }
    out.end_object()?;
    Ok(())
}

/// Writes the values of a field as one list.
fn write_list(
    alloc: Global,
    values: Vec<CompactDocValue<'_>>,
    out: &mut Writer,
) -> Result<(), AllocError>
    ensures ok { OnOk result (out.new.tokens
        ≡ out.old.tokens ++ json_tokens (outline (array (printed_list (lent_values values.entry.items))))) }
    ensures before { out.new.before ≡ out.old.before }
{
    out.begin_array()?;
    for value in values {
        write_value(alloc, value, out)?;
    }
    out.end_array()?;
    Ok(())
}
