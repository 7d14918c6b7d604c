//! The options of fields: what is stored, what is indexed, and what is recorded of a text field's terms.
#![tactic(auto)]

pub mod bytes_options;
pub mod date_options;
pub mod facet_options;
pub mod flags;
pub mod index_record_option;
pub mod ip_addr_options;
pub mod json_object_options;
pub mod laws;
pub mod numeric_options;
pub mod text_options;

pub use bytes_options::BytesOptions;
pub use date_options::DateOptions;
pub use facet_options::FacetOptions;
pub use flags::{
    COERCE, CoerceFlag, FAST, FastFlag, INDEXED, IndexedFlag, STORED, SchemaFlagList, SetsIn,
    StoredFlag,
};
pub use index_record_option::IndexRecordOption;
pub use ip_addr_options::IpAddrOptions;
pub use json_object_options::JsonObjectOptions;
pub use numeric_options::NumericOptions;
pub use text_options::{STRING, TEXT, TextFieldIndexing, TextOptions};
