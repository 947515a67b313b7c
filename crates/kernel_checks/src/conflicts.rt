//! Rule 15: pairs of accesses whose instances may touch one cell unordered.
use affine_rows::Listed;
use kernel_ir::{Fault, Kernel, Storing};
use kernel_rules::{Access, Use, check_order, same_cell};
use std::alloc::Global;

/// Whether both are updates by one operator.
fn are_alike(first: Storing, second: Storing) -> bool {
    match (first, second) {
        (Storing::Update(left), Storing::Update(right)) => left == right,
        _ => false,
    }
}

/// Whether two accesses are a pair: of one array or temporary, one of them a store, and not two updates by one operator.
fn is_pair(first: Use<'_>, second: Use<'_>) -> bool {
    let updates = first.access.store
        && second.access.store
        && are_alike(first.insn.storing, second.insn.storing);
    same_cell(first.access.cell, second.access.cell)
        && (first.access.store || second.access.store)
        && !updates
}

/// The accesses of the instruction at a place.
fn accesses_at(accesses: &[Listed<Access>], at: usize) -> &[Access] {
    match accesses.get(at) {
        None => &[],
        Some(own) => own.as_slice(),
    }
}

/// Rule 15 of an access with the accesses of an instruction, from a place among these on.
fn check_with(
    alloc: Global,
    plain: &Kernel,
    accesses: &[Listed<Access>],
    first: Use<'_>,
    second: usize,
    from: usize,
) -> Result<(), Fault> {
    if let Some(insn) = plain.insns.get(second) {
        let others = accesses_at(accesses, second);
        for at in from..others.len() {
            let other = Use {
                insn,
                access: &others[at],
                at: second,
            };
            if is_pair(first, other) {
                check_order(alloc, 15, plain, accesses, first, other, false)?;
            }
        }
    }
    Ok(())
}

/// Rule 15 of two instructions, of which the first is not after the second. Within one instruction the first access is not
/// after the second.
fn check_two(
    alloc: Global,
    plain: &Kernel,
    accesses: &[Listed<Access>],
    first: usize,
    second: usize,
) -> Result<(), Fault> {
    if let Some(insn) = plain.insns.get(first) {
        let own = accesses_at(accesses, first);
        for at in 0..own.len() {
            let used = Use {
                insn,
                access: &own[at],
                at: first,
            };
            let from = if first == second { at } else { 0 };
            check_with(alloc, plain, accesses, used, second, from)?;
        }
    }
    Ok(())
}

/// Rule 15, by the first access's instruction, then the second's, then by the places of the accesses in their lists.
pub(crate) fn check_conflicts(
    alloc: Global,
    plain: &Kernel,
    accesses: &[Listed<Access>],
) -> Result<(), Fault> {
    for first in 0..plain.insns.len() {
        for second in first..plain.insns.len() {
            check_two(alloc, plain, accesses, first, second)?;
        }
    }
    Ok(())
}
