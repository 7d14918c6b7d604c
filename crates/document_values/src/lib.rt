//! The values of documents: in memory, as bytes, and as JSON.
#![tactic(auto)]

mod compact_tokens;
mod compact_value;
mod depths;
mod disposal;
mod heads;
mod held_values;
mod iterators;
mod json_printer;
mod json_put;
mod json_text;
mod owned_value;
mod pairs;
mod stored_values;
mod value_copies;
mod value_reader;
mod value_writer;

pub use compact_tokens::CompactDocTokens;
pub use compact_value::CompactDocValue;
pub use depths::{is_too_deep, is_too_deep_object};
pub use iterators::{CompactDocArrayIter, CompactDocObjectIter, FieldValueIterRef, ValuesOfField};
pub use json_printer::{value_to_json, values_to_json};
pub use json_put::json_object_pair;
pub use json_text::write_value;
pub use owned_value::OwnedValue;
pub use pairs::{
    address_pair, append, append_sized, object_pair, owned_pair, tokens_pair, value_head,
};
pub use stored_values::stored_value;
pub use value_reader::{MAX_NESTING, skip_pairs, take_value};
pub use value_writer::put_value;
