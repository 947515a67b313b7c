//! How a limit is asked.
ghost use Rattle.kernel_ir.specs.Refusals.{Refuses};
ghost use Rattle.kernel_limits.specs.Asked.{asked, counted};

use kernel_ir::{Fault, Refusal, Site};
use std::alloc::Global;

/// Refuses at the line, with what passes which limit, where something is not within it.
pub(crate) fn ask(
    alloc: Global,
    within: bool,
    line: u32,
    what: &str,
    limit: u64,
) -> Result<(), Fault>
    ensures { Refuses (asked within line what.now limit) result }
{
    if within {
        return Ok(());
    }
    let refusal = Refusal::limit(alloc, Site::Kernel, what, i128::from(limit))?;
    Err(Fault::Rule(refusal.at_line(line)))
}

/// The same of a count that must be at most the limit.
pub(crate) fn ask_count(
    alloc: Global,
    count: u64,
    line: u32,
    what: &str,
    limit: u64,
) -> Result<(), Fault>
    ensures { Refuses (counted count line what.now limit) result }
{
    ask(alloc, count <= limit, line, what, limit)
}
