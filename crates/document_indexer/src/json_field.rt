//! What the values of a JSON field are indexed by.

use schema::Schema;
use terms::Field;

/// A JSON field whose terms are recorded.
#[derive(Drop)]
pub(crate) struct JsonField<'a> {
    pub(crate) schema: &'a Schema,
    pub(crate) field: Field,
    pub(crate) tokenizer: &'a str,
    pub(crate) expand_dots: bool,
}
