//! Fields, their options, and the terms that documents are found by.
#![tactic(auto)]

mod field_entry;
mod field_name;
mod fields;
mod json_depth;
mod json_keys;
pub mod json_laws;
mod kept_lengths;
mod read_schema;
mod schema;
mod write_schema;

pub use field_entry::{FieldEntry, FieldType};
pub use field_name::is_valid_field_name;
pub use fields::Fields;
pub use json_depth::is_too_deep;
pub use json_keys::{flag_or, has_only, has_only_beside, number_at, number_in, object_at, text_at};
pub use kept_lengths::length_fields;
pub use options::{
    BytesOptions, COERCE, CoerceFlag, DateOptions, FAST, FacetOptions, FastFlag, INDEXED,
    IndexRecordOption, IndexedFlag, IpAddrOptions, JsonObjectOptions, NumericOptions, STORED,
    STRING, SchemaFlagList, StoredFlag, TEXT, TextFieldIndexing, TextOptions,
};
pub use schema::{Schema, SchemaBuilder};
pub use terms::{
    DateTime, FACET_SEP_BYTE, FACET_SEP_CHAR, Facet, FastValue, Field, IntoIpv6Addr, Term, Type,
    push_json_path, push_term_header, term_laws,
};
