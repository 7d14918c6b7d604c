//! Tests of the crates at the base: refusals as texts, flags of options, sets, streams of tokens, devices in memory, and
//! lines that are served, with expected values from outside the program.
#![tactic(auto)]

#[cfg(test)]
mod alive_sets;
#[cfg(test)]
mod bit_sets;
#[cfg(test)]
mod fault_texts;
#[cfg(test)]
mod fuse_devices;
#[cfg(test)]
mod memory_devices;
#[cfg(test)]
mod option_flags;
#[cfg(test)]
mod served_lines;
#[cfg(test)]
mod token_streams;
