//! Values of each type read from JSON, and printed as it.
#![tactic(auto)]

mod address_texts;
mod addresses;
mod bytes;
mod civil;
mod date_texts;
mod dates;
mod facets;
mod floats;
mod leaf;
mod leaf_printer;
mod leaf_reader;
mod numbers;
mod padded_numbers;

pub use address_texts::address_text;
pub use addresses::read_address;
pub use bytes::{bytes_text, read_bytes};
pub use date_texts::date_text;
pub use dates::read_date;
pub use facets::read_facet;
pub use floats::has_float;
pub use leaf::Leaf;
pub use leaf_printer::leaf_to_json;
pub use leaf_reader::read_leaf;
pub use numbers::{read_bool_text, read_i64_number, read_i64_text, read_u64_number, read_u64_text};
