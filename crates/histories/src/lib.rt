//! Histories of an index: each call is a step, and calls, crashes and openings lead where the definitions say.
#![tactic(auto)]

pub mod calls;
pub mod laws;
