//! Refusals.
use affine_rows::{Listed, Name, Point};
use std::alloc::AllocError;

/// Where a refused text or value stands.
#[derive(Clone, Copy, Debug, PartialEq, Eq)]
pub enum Site {
    Kernel,
    Script,
    Target,
    Args,
    Code,
    Schedule,
}

/// A rule that refused, with what it keeps: the line is 0 where none is at fault, the names and numbers are those of the
/// refusal line in their order, and the point shows why the rule could not be ruled out.
#[derive(Drop)]
pub struct Refusal {
    pub site: Site,
    pub line: u32,
    pub number: u8,
    pub names: Listed<Name>,
    pub numbers: Listed<i128>,
    pub point: Option<Point>,
}

/// Why a call on kernels or codes gives nothing.
#[derive(Drop)]
pub enum Fault {
    OutOfMemory,
    Rule(Refusal),
}

impl From<AllocError> for Fault {
    ghost use Rattle.std.specs.Prelude.{◌≡◌};
    ghost use Rattle.kernel_ir.specs.declared.fault.Fault.TheVariants.{OutOfMemory};

    ghost from_gives = { λ _ fault. fault ≡ OutOfMemory };

    fn from(_: AllocError) -> Fault {
        Fault::OutOfMemory
    }
}
