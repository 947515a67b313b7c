//! The lines that are written on err.
ghost use Rattle.std.specs.Prelude.{◌≡◌, IfOk};
ghost use Rattle.std.specs.String.{string_bytes};
ghost use Rattle.loopw_core.specs.Lines.{usage_line, read_fault_line, too_long};

use kernel_ir::{Refusal, Site};
use std::alloc::{AllocError, Global};

const USAGE: &str =
    "usage: loopw write c|opencl KERNEL SCRIPT, show KERNEL SCRIPT, eval KERNEL ARGS, run CODE ARGS SCHEDULE, gen NUMBER\n";

/// The line that is written where the words are of no form.
#[tactic(auto, unfolding(crate::specs::Lines::usage_line))]
pub(crate) fn usage() -> &'static str
    ensures { result.now ≡ usage_line }
{
    USAGE
}

/// The line of a file that could not be opened or read.
#[tactic(auto, unfolding(crate::specs::Lines::read_fault_line))]
pub(crate) fn read_fault(alloc: Global, name: &str) -> Result<String, AllocError>
    ensures { IfOk result (λ line. string_bytes line ≡ read_fault_line name.now) }
{
    format!(in alloc; "read fault: {name}\n")
}

/// The refusal by rule 3 of a file that has too many bytes.
pub(crate) fn too_long(alloc: Global, site: Site) -> Result<Refusal, AllocError>
    ensures { IfOk result (λ refusal. refusal ≡ too_long site) }
{
    Refusal::limit(alloc, site, "bytes", 1_048_576)
}
