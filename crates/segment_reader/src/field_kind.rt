//! The types of indexed fields, and what is recorded of their terms.

ghost use Rattle.std.specs.Prelude.{◌≡◌, ◌≤◌, IfOk, OnOk, length, map};
ghost use Rattle.definitions.specs.Schema.{max_fields};
ghost use Rattle.segment_reader.specs.FieldKinds.{kinds_of, option_in, shown};
ghost use Rattle.options.specs.RecordOption.{record_option_of};

use options::IndexRecordOption;
use schema::Schema;
use std::alloc::{AllocError, Global};
use terms::Type;

/// An indexed field: its number, the type of its values, and what is recorded of its texts.
#[derive(Clone, Copy)]
pub(crate) struct FieldKind {
    pub(crate) field: u32,
    pub(crate) value_type: Type,
    pub(crate) record_option: IndexRecordOption,
}

impl FieldKind {
    /// Returns what is recorded of the term of the field with the value bytes `key`.
    pub(crate) fn option_of(&self, key: &[u8]) -> IndexRecordOption
        ensures { record_option_of result ≡ option_in self.now key.now }
    {
        if self.value_type.is_text_value(key) {
            self.record_option
        } else {
            IndexRecordOption::Basic
        }
    }
}

/// Returns the indexed fields of `schema`, in order.
pub(crate) fn field_kinds(alloc: Global, schema: &Schema) -> Result<Vec<FieldKind>, AllocError>
    ensures kinds { IfOk result (λ kinds. map shown kinds.items ≡ kinds_of schema.now) }
    ensures few { OnOk result (length schema.now ≤ max_fields) }
{
    let mut kinds = Vec::with_capacity(alloc, schema.num_fields())?;
    for (field, entry) in schema.fields() {
        let field_type = entry.field_type();
        if let Some(record_option) = field_type.get_index_record_option() {
            kinds.push(FieldKind {
                field: field.field_id(),
                value_type: field_type.value_type(),
                record_option,
            })?;
        }
    }
    Ok(kinds)
}
