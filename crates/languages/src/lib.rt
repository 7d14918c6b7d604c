//! An analyzer for texts of any script, by the tables of Unicode 18: words without case or accents, and English stems.
#![tactic(auto)]

mod asked;
mod characters;
mod cutting;
mod folding;
mod languages;
mod plain;
mod word_form;
pub mod word_laws;
mod writing;

pub use asked::Asked;
pub use languages::Languages;
