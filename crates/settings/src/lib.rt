//! Settings of an index, kept and as JSON: sizes, weights of terms, norms of lengths; and terms as JSON.
#![tactic(auto)]

mod json_paths;
mod json_settings;
mod json_terms;
mod paths_to_json;
mod settings;
mod term_values;
mod terms_to_json;
mod weights_and_norms;

pub use json_terms::{read_term, term_beside};
pub use settings::Settings;
pub use terms_to_json::term_to_json;
pub use weights_and_norms::Statistics;
