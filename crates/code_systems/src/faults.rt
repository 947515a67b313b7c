//! Faults of queries as refusals.
use elimination::SetFault;
use kernel_ir::{Fault, Refusal, Site};
use kernel_rules::told;
use std::alloc::{AllocError, Global};

/// Rule 18: a row of a stage is too wide.
fn too_wide(alloc: Global, stage: u32, row: u32) -> Result<Refusal, AllocError> {
    Refusal::of_rule(alloc, Site::Code, 18)
        .with_number(i128::from(stage))?
        .with_number(i128::from(row))
}

/// Rule 19: a stage has too many rows.
fn too_many_rows(alloc: Global, stage: u32) -> Result<Refusal, AllocError> {
    Refusal::of_rule(alloc, Site::Code, 19).with_number(i128::from(stage))
}

/// The fault of a query on a code as one of the code: rules 18 and 19.
pub fn refused(alloc: Global, fault: SetFault) -> Fault {
    match fault {
        SetFault::OutOfMemory => Fault::OutOfMemory,
        SetFault::TooWide { stage, row } => told(too_wide(alloc, stage, row)),
        SetFault::TooManyRows { stage } => told(too_many_rows(alloc, stage)),
    }
}
