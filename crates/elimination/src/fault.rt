//! Why an elimination is refused.
ghost use Rattle.std.specs.Prelude.{◌≡◌};
ghost use Rattle.elimination.specs.Refusals.{fault_of};

use affine_rows::RowFault;
use std::alloc::{AllocError, AllocFailed};
use thiserror::Error;

/// Why rows could not be made.
#[derive(Debug, Drop, Error)]
pub enum SetFault {
    /// There is no memory.
    #[error("out of memory")]
    OutOfMemory,
    /// An entry of a reduced row passes 2^62 in absolute value, in the row of that place in the list of the stage, counted
    /// from 0; or a number of a chosen point passes 2^56.
    #[error("row {row} of stage {stage} is too wide")]
    TooWide { stage: u32, row: u32 },
    /// A stage would have more than 65,536 rows before any is dropped.
    #[error("stage {stage} has too many rows")]
    TooManyRows { stage: u32 },
}

impl From<AllocError> for SetFault {
    ghost use Rattle.elimination.specs.declared.fault.SetFault.TheVariants.{OutOfMemory};

    ghost from_gives = { λ _ fault. fault ≡ OutOfMemory };

    fn from(_: AllocError) -> SetFault {
        SetFault::OutOfMemory
    }
}

impl<T: Drop> From<AllocFailed<T>> for SetFault {
    ghost use Rattle.elimination.specs.declared.fault.SetFault.TheVariants.{OutOfMemory};

    ghost from_gives = { λ _ fault. fault ≡ OutOfMemory };

    fn from(_: AllocFailed<T>) -> SetFault {
        SetFault::OutOfMemory
    }
}

/// A row's fault, in the stage of that number and at that place in its list.
pub(crate) fn fault_of(fault: RowFault, stage: u32, row: usize) -> SetFault
    ensures { result ≡ fault_of fault stage row }
{
    match fault {
        RowFault::OutOfMemory => SetFault::OutOfMemory,
        RowFault::Wide => SetFault::TooWide {
            stage,
            row: row.min(u32::MAX as usize) as u32,
        },
    }
}
