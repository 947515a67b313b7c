//! Why a call on rows fails.
use std::alloc::AllocError;
use thiserror::Error;

/// Why a row could not be made.
#[derive(Debug, Drop, Error)]
pub enum RowFault {
    /// There is no memory.
    #[error("out of memory")]
    OutOfMemory,
    /// An entry of the reduced row passes 2^62 in absolute value.
    #[error("an entry is too wide")]
    Wide,
}

impl From<AllocError> for RowFault {
    ghost use Rattle.std.specs.Prelude.{◌≡◌};
    ghost use Rattle.affine_rows.specs.declared.fault.RowFault.TheVariants.{OutOfMemory};

    ghost from_gives = { λ _ fault. fault ≡ OutOfMemory };

    fn from(_: AllocError) -> RowFault {
        RowFault::OutOfMemory
    }
}
