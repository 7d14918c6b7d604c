//! Settings by the weights of terms: `DEFAULT, [[TERM, WEIGHT], ..]`, and with norms.

use crate::given_terms::weighted_terms_in;
use crate::{Arguments, Refusal};
use settings::Settings;
use std::alloc::Global;

/// Settings with a default weight, weights of terms, and a norm for each length id; each norm is 1 where none are given.
pub fn settings_in(alloc: Global, arguments: &Arguments) -> Result<Settings, Refusal> {
    let default_weight = arguments.number(0)?;
    let weights = weighted_terms_in(alloc, arguments.value(1)?)?;
    let norms = match arguments.value(2) {
        Ok(_) => arguments.numbers(alloc, 2)?,
        Err(_) => Vec::from_elem(alloc, 1, 256)?,
    };
    Ok(Settings::new(alloc, 1, 1, 1, default_weight, weights, norms)?)
}
