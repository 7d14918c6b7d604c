//! Tests of postings by public calls, with expected values from outside the program.
#![tactic(auto)]

#[cfg(test)]
mod checked_terms;
#[cfg(test)]
mod cursor_walks;
#[cfg(test)]
mod recorded_texts;
#[cfg(test)]
mod recorders;
#[cfg(test)]
mod written_postings;
#[cfg(test)]
mod written_terms;
