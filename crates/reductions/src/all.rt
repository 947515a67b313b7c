//! All reductions of a kernel.
use crate::single::realize_reduction;
use kernel_edits::{fold_count, fold_count_of_all};
use kernel_ir::{Fault, Insn, Kernel};
use std::alloc::Global;

/// The first instruction that has a reduction.
fn first_with_fold(insns: &[Insn]) -> Option<&Insn> {
    insns.iter().find(|insn| fold_count(insn) > 0)
}

/// The kernel in which the reductions of the first instruction that has some are realized.
fn next(alloc: Global, kernel: Kernel) -> Result<Kernel, Fault> {
    match first_with_fold(kernel.insns.as_slice()) {
        None => Ok(kernel),
        Some(insn) => realize_reduction(alloc, &kernel, &insn.id),
    }
}

/// The kernel in which all reductions are realized: those of the first instruction that has some, until no instruction has any. So
/// what comes from one instruction is realized before later ones. It is refused as by `realize_reduction`, but not by rule 1.
pub fn realize_all(alloc: Global, kernel: &Kernel) -> Result<Kernel, Fault> {
    let mut made = kernel.copy(alloc)?;
    for _ in 0..fold_count_of_all(kernel.insns.as_slice()) {
        made = next(alloc, made)?;
    }
    Ok(made)
}
