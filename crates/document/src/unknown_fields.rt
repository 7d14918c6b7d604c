//! Fields that a schema doesn't have.

ghost use Rattle.std.specs.Prelude.{◌≡◌};
ghost use Rattle.definitions.specs.Calls.{has_unknown_field};

use crate::compact_doc::CompactDoc;
use schema::Schema;

/// Whether `doc` has a value of a field that the schema lacks.
pub fn has_unknown_field(schema: &Schema, doc: &CompactDoc) -> bool
    ensures { result ≡ has_unknown_field schema.now doc.now }
{
    for (field, _) in doc.field_values() {
        if field.field_id() as usize >= schema.num_fields() {
            return true;
        }
    }
    false
}
