//! Why a job gives no text.
use kernel_ir::{Fault, Name, Refusal, Site};
use std::alloc::{AllocError, Global};

/// Want of memory, or a refusal with the word that stands behind its site: the command of a script's line, the target, or
/// nothing.
#[derive(Drop)]
pub enum JobFault {
    OutOfMemory,
    Refused(Refusal, Name),
}

impl From<AllocError> for JobFault {
    ghost use Rattle.std.specs.Prelude.{◌≡◌};
    ghost use Rattle.loopw_core.specs.declared.fault.JobFault.TheVariants.{OutOfMemory};

    ghost from_gives = { λ _ fault. fault ≡ OutOfMemory };

    fn from(_: AllocError) -> JobFault {
        JobFault::OutOfMemory
    }
}

/// The fault of a call, at the site and line that it says.
pub(crate) fn plain(alloc: Global, fault: Fault) -> JobFault {
    match fault {
        Fault::OutOfMemory => JobFault::OutOfMemory,
        Fault::Rule(refusal) => with_word(alloc, refusal, ""),
    }
}

/// The fault of a call on what stands at a site, with the word behind the site.
pub(crate) fn placed(alloc: Global, fault: Fault, site: Site, line: u32, word: &str) -> JobFault {
    match fault {
        Fault::OutOfMemory => JobFault::OutOfMemory,
        Fault::Rule(refusal) => with_word(
            alloc,
            Refusal {
                site,
                line,
                ..refusal
            },
            word,
        ),
    }
}

fn with_word(alloc: Global, refusal: Refusal, word: &str) -> JobFault {
    match Name::from_str(alloc, word) {
        Ok(word) => JobFault::Refused(refusal, word),
        Err(_) => JobFault::OutOfMemory,
    }
}
