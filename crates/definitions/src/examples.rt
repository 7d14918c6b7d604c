//! Worked examples, each computed over the definitions.

pub mod addresses;
pub mod answers;
pub mod blocks;
pub mod calls;
pub mod dates;
pub mod disk;
pub mod forms;
pub mod history;
pub mod lines;
pub mod matching;
pub mod merging;
pub mod moments;
pub mod phrases;
pub mod prefixes;
pub mod ranking;
pub mod reading;
pub mod refusals;
pub mod scored_lists;
pub mod settings;
pub mod terms;
pub mod texts;
pub mod written;
