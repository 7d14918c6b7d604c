//! Tests that call several crates, with expected values from outside the program.
#![tactic(auto)]

#[cfg(test)]
mod cache_stats;
#[cfg(test)]
mod lengths_written;
#[cfg(test)]
mod schema_kinds;
