//! Tests of an index's file and device: files cut at each length or changed at each byte, readers and writers that fail,
//! which calls of its device an index makes, and the device over a file, of which no clause says what it holds.
#![tactic(auto)]

#[cfg(test)]
mod books;
#[cfg(test)]
mod changed_files;
#[cfg(test)]
mod device_calls;
#[cfg(test)]
mod failing_streams;
#[cfg(test)]
mod file_bytes;
#[cfg(test)]
mod files;
#[cfg(test)]
mod refused_calls;

/// Nothing: the tests are what this crate is for.
fn main() {}
