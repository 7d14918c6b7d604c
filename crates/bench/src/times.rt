//! Time that went by.

use definitions::Fault;
use std::time::{Clock, Instant};

/// The time.
pub(crate) fn now(clock: &impl Clock) -> Result<Instant, Fault> {
    match Instant::now(clock) {
        Ok(now) => Ok(now),
        Err(_) => Err(Fault::Device),
    }
}

/// How many nanoseconds went by.
pub(crate) fn nanos_since(clock: &impl Clock, begun: Instant) -> Result<u128, Fault> {
    match begun.elapsed(clock) {
        Ok(elapsed) => Ok(elapsed.as_nanos()),
        Err(_) => Err(Fault::Device),
    }
}
