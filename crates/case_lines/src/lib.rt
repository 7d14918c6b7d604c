//! Lines of worked cases and their answers, and the schemas, documents, queries and weights that lines make: what the
//! programs of cases share. A program has its own operations.
#![tactic(auto)]

mod added_values;
mod arguments;
mod given_terms;
mod given_weights;
mod lines;
mod made_schemas;
mod nodes;
mod operations;
mod outcomes;
mod parts;
mod refusal;
mod replies;
mod runs;
mod schema_fields;
mod steps;
mod sweeps;

pub use added_values::{
    bits_of, document_of_values, field_in, number_in, part, signed_in, text_in,
};
pub use arguments::{Arguments, bytes_of_digits};
pub use given_terms::term_in;
pub use given_weights::settings_in;
pub use lines::answers;
pub use made_schemas::made;
pub use operations::Operations;
pub use outcomes::Outcomes;
pub use parts::items_in;
pub use refusal::Refusal;
pub use replies::{Cell, cells, flag, hex, number, numbers, pair, text, texts, triple};
pub use runs::Runs;
pub use steps::query_by_steps;
