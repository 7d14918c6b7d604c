//! Terms, and the values that they are made of.
#![tactic(auto)]

mod date_time;
mod facet;
mod fast_value;
mod field;
mod field_type;
mod ip_addr;
mod json_path;
mod sortable;
mod term;
pub mod term_laws;
mod text_keys;

pub use date_time::{DateTime, NANOS_PER_SECOND};
pub use facet::{FACET_SEP_BYTE, FACET_SEP_CHAR, Facet};
pub use fast_value::FastValue;
pub use field::Field;
pub use field_type::Type;
pub use ip_addr::IntoIpv6Addr;
pub use json_path::has_zero;
pub use sortable::SIGN_BIT;
pub use term::{HEADER_LEN, Term, push_json_path, push_term_header};
