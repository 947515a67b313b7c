//! Kernels with automatic dependences.
ghost use Rattle.std.specs.Prelude.{◌≡◌, IfOk};

use crate::adding::insns_with_deps;
use crate::circles::first_circle;
use kernel_ir::{Fault, Kernel};
use std::alloc::Global;
use subst_rules::expand;

/// The kernel with its automatic dependences: of each reader, unless they are turned off, on the one instruction that stores
/// to what it reads, if it is another one. They stand behind those that are written, in the order of the reads, each once.
/// The kernel is refused by rule 12 where an instruction then reaches itself, and by rules 3, 7 and 8 where it is not valid,
/// so that its uses of rules cannot be replaced.
pub fn auto_deps(alloc: Global, kernel: Kernel) -> Result<Kernel, Fault>
    ensures { IfOk result (λ made. made ≡ record kernel { insns = made.insns }) }
{
    let plain = expand(alloc, &kernel)?;
    let insns = insns_with_deps(alloc, kernel.insns.as_slice(), plain.insns.as_slice())?;
    match first_circle(alloc, insns.as_slice())? {
        Some(refusal) => Err(Fault::Rule(refusal)),
        None => Ok(Kernel { insns, ..kernel }),
    }
}
