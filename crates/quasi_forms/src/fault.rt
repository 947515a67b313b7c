//! Why a form could not be made.
use std::alloc::{AllocError, AllocFailed};
use thiserror::Error;

/// Why a form could not be made.
#[derive(Debug, Drop, Error)]
pub enum FormFault {
    /// There is no memory.
    #[error("out of memory")]
    OutOfMemory,
    /// The tree is no index expression.
    #[error("not an index expression")]
    NotAffine,
    /// The form, or a part that is collected on the way, passes a limit.
    #[error("the index expression passes a limit")]
    Limit,
}

impl From<AllocError> for FormFault {
    ghost use Rattle.std.specs.Prelude.{◌≡◌};
    ghost use Rattle.quasi_forms.specs.declared.fault.FormFault.TheVariants.{OutOfMemory};

    ghost from_gives = { λ _ fault. fault ≡ OutOfMemory };

    fn from(_: AllocError) -> FormFault {
        FormFault::OutOfMemory
    }
}

impl<T: Drop> From<AllocFailed<T>> for FormFault {
    ghost use Rattle.std.specs.Prelude.{◌≡◌};
    ghost use Rattle.quasi_forms.specs.declared.fault.FormFault.TheVariants.{OutOfMemory};

    ghost from_gives = { λ _ fault. fault ≡ OutOfMemory };

    fn from(_: AllocFailed<T>) -> FormFault {
        FormFault::OutOfMemory
    }
}
