//! The fields that keep lengths.

ghost use Rattle.std.specs.Prelude.{◌≡◌, IfOk};
ghost use Rattle.definitions.specs.KeptLengths.{length_fields};

use crate::schema::Schema;
use std::alloc::{AllocError, Global};

/// Lists the numbers of the fields of `schema` that keep lengths.
pub fn length_fields(alloc: Global, schema: &Schema) -> Result<Vec<u32>, AllocError>
    ensures { IfOk result (λ fields. fields.items ≡ length_fields schema.now) }
{
    let mut fields = Vec::new(alloc);
    for (field, entry) in schema.fields() {
        if entry.has_fieldnorms() {
            fields.push(field.field_id())?;
        }
    }
    Ok(fields)
}
