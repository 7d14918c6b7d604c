//! Tests of the index of what no line of text says: queries and hits as values, indexes of very many fields, the longest
//! token, analyzers that a program brings, and the library as a program calls it. Those of its file are in
//! `index_file_tests`; all other expected values are the lines of `index_cases`.
#![tactic(auto)]

#[cfg(test)]
mod hits;
#[cfg(test)]
mod indexes;
#[cfg(test)]
mod library;
#[cfg(test)]
mod long_tokens;
#[cfg(test)]
mod made_indices;
#[cfg(test)]
mod queries;
#[cfg(test)]
mod silence;
#[cfg(test)]
mod silent_analyzer;
#[cfg(test)]
mod tokenizers;
#[cfg(test)]
mod whole_analyzer;

/// Nothing: the tests are what this crate is for.
fn main() {}
