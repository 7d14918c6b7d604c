//! The stems of English words, by the algorithm that is known as Porter2.
#![tactic(auto)]

mod letters;
mod regions;
mod stems;
mod steps;
mod suffixes;

pub use stems::stem;
