//! What a use reads, with uses of rules replaced.
use crate::uses::{Source, Used};
use affine_rows::{Form, Listed, copy_forms};
use expr_tree::{Cell, Expr, ExprFault, Node};
use kernel_edits::{expr_fault, tree_of};
use kernel_ir::{Fault, Insn, Kernel};
use kernel_rules::{Access, plain_accesses};
use std::alloc::Global;
use subst_rules::expand;

/// The read of the array, or the use of the rule, at subscripts or arguments.
pub(crate) fn use_at(alloc: Global, source: Source, place: &[Form]) -> Result<Expr, ExprFault> {
    let place = copy_forms(alloc, place)?;
    match source {
        Source::Array(at) => tree_of(alloc, Node::Read(Cell::Array(at), place)),
        Source::Rule(at) => tree_of(alloc, Node::Call(at, place)),
    }
}

/// The accesses of the instruction at a place, with uses of rules replaced, and none where there is no such instruction.
pub(crate) fn accesses_at(
    alloc: Global,
    kernel: &Kernel,
    at: usize,
) -> Result<Listed<Access>, Fault> {
    let plain = expand(alloc, kernel)?;
    match plain.insns.get(at) {
        None => Ok(Listed::new(alloc)),
        Some(insn) => Ok(plain_accesses(alloc, insn)?),
    }
}

/// The instruction with a use alone as its value, and without a data test.
fn alone(alloc: Global, insn: &Insn, source: Source, used: &Used) -> Result<Insn, ExprFault> {
    let value = use_at(alloc, source, used.place.as_slice())?;
    let copied = insn.copy(alloc)?;
    Ok(Insn {
        value,
        test: None,
        ..copied
    })
}

/// The kernel with one instruction.
fn with_one(alloc: Global, kernel: &Kernel, insn: Insn) -> Result<Kernel, Fault> {
    let insns = Listed::of_one(alloc, insn)?;
    let copied = kernel.copy(alloc)?;
    Ok(Kernel { insns, ..copied })
}

/// The accesses of a use in an instruction of a valid kernel: the instruction's store, and what the use reads.
fn accesses_of_use(
    alloc: Global,
    kernel: &Kernel,
    insn: &Insn,
    source: Source,
    used: &Used,
) -> Result<Listed<Access>, Fault> {
    match alone(alloc, insn, source, used) {
        Ok(own) => accesses_at(alloc, &with_one(alloc, kernel, own)?, 0),
        Err(fault) => Err(expr_fault(alloc, fault)),
    }
}

/// Adds the reads of a use in an instruction of a valid kernel.
pub(crate) fn add_reads(
    alloc: Global,
    kernel: &Kernel,
    insn: &Insn,
    source: Source,
    used: &Used,
    reads: &mut Listed<Access>,
) -> Result<(), Fault> {
    for access in accesses_of_use(alloc, kernel, insn, source, used)?.into_vec() {
        if !access.store {
            reads.push(access)?;
        }
    }
    Ok(())
}
