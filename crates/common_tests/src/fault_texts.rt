//! How refusals print, which no clause says.

use common::RunFault;
use definitions::Fault;
use std::alloc::{AllocError, Global};

/// Whether a refusal prints its name.
fn is_printed(alloc: Global, fault: Fault, text: &str) -> Result<bool, AllocError> {
    Ok(format!(in alloc; "{}", fault)?.as_str() == text)
}

/// Whether the end of a run prints what failed.
fn is_end_printed(alloc: Global, fault: RunFault, text: &str) -> Result<bool, AllocError> {
    Ok(format!(in alloc; "{}", fault)?.as_str() == text)
}

/// Whether refusals and ends of runs print so.
fn faults_print(alloc: Global) -> Result<bool, AllocError> {
    Ok(
        is_printed(alloc, Fault::LineTooLong, "LineTooLong")?
            && is_printed(alloc, Fault::Damaged(Some(7)), "Damaged")?
            && is_end_printed(alloc, RunFault::ReadFault, "read fault")?
            && is_end_printed(alloc, RunFault::WriteFault, "write fault")?,
    )
}

#[test]
fn faults_are_printed(rt: HostRuntime) -> Result<(), AllocError> {
    assert!(rt; faults_print(rt.alloc())?);
    Ok(())
}
