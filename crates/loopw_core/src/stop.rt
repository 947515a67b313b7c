//! Why a call writes no text.
use crate::fault::JobFault;
use kernel_ir::{Name, Refusal};
use std::alloc::AllocError;

/// Want of memory, a file that could not be opened or read, or a refusal with the word of its site.
#[derive(Drop)]
pub enum Stop {
    OutOfMemory,
    Unread(Name),
    Refused(Refusal, Name),
}

impl From<AllocError> for Stop {
    ghost use Rattle.std.specs.Prelude.{◌≡◌};
    ghost use Rattle.loopw_core.specs.declared.stop.Stop.TheVariants.{OutOfMemory};

    ghost from_gives = { λ _ stop. stop ≡ OutOfMemory };

    fn from(_: AllocError) -> Stop {
        Stop::OutOfMemory
    }
}

impl From<JobFault> for Stop {
    ghost use Rattle.std.specs.Prelude.{◌≡◌};
    ghost use Rattle.loopw_core.specs.Stopping.{stop_of};

    ghost from_gives = { λ fault stop. stop ≡ stop_of fault };

    fn from(fault: JobFault) -> Stop {
        match fault {
            JobFault::OutOfMemory => Stop::OutOfMemory,
            JobFault::Refused(refusal, word) => Stop::Refused(refusal, word),
        }
    }
}
