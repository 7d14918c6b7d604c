//! What several indexes replied to the same requests, merged line by line.
#![tactic(auto)]

mod failure;
mod lines;
mod merged_files;
mod reply_line;

pub use merged_files::run;
