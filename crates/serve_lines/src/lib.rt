//! The run over the lines of an input: each line is answered by a service, and the replies are
//! written.
#![tactic(auto)]

mod line_buffer;
mod line_reader;
mod line_run;
mod service;

pub use common::RunFault;
pub use line_run::{run, run_within};
pub use service::Service;
