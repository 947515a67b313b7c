//! The reductions of one instruction.
use crate::once::realized_once;
use affine_rows::Name;
use command_parts::{check_homes, check_new};
use kernel_edits::{fold_count, refused};
use kernel_ir::{Fault, Insn, Kernel, Refusal, Site};
use std::alloc::Global;

/// The instruction with this id, if it has a reduction.
fn with_fold<'a>(insns: &'a [Insn], id: &Name) -> Option<&'a Insn> {
    insns.iter().find(|insn| insn.id.as_bytes() == id.as_bytes() && fold_count(insn) > 0)
}

/// The kernel in which one reduction more of the instruction is realized, if it has one.
fn next(alloc: Global, kernel: Kernel, id: &Name) -> Result<Kernel, Fault> {
    let made = match with_fold(kernel.insns.as_slice(), id) {
        None => None,
        Some(insn) => realized_once(alloc, &kernel, insn)?,
    };
    Ok(made.unwrap_or(kernel))
}

/// The kernel in which all reductions of an instruction are realized, of which there are at most so many.
fn all_of(alloc: Global, kernel: &Kernel, id: &Name, count: usize) -> Result<Kernel, Fault> {
    let mut made = kernel.copy(alloc)?;
    for _ in 0..count {
        made = next(alloc, made, id)?;
    }
    Ok(made)
}

/// The kernel in which the reductions of an instruction are realized, the outermost, leftmost one first and until none is left in it.
/// It is refused by rule 1 where there is no such instruction or it has no reduction; else by rule 3 where the new kernel
/// passes a limit; else by rule 13 where a temporary has other home inames then. The site is the script, without a line.
pub fn realize_reduction(alloc: Global, kernel: &Kernel, id: &Name) -> Result<Kernel, Fault> {
    let Some(insn) = with_fold(kernel.insns.as_slice(), id) else {
        return Err(refused(Refusal::unknown(alloc, Site::Script, id)));
    };
    let made = all_of(alloc, kernel, id, fold_count(insn))?;
    check_new(alloc, &made)?;
    let asked = vec![in alloc; true; kernel.temps.len()]?;
    check_homes(alloc, kernel, &made, &asked)?;
    Ok(made)
}
