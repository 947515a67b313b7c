//! Kernels in which inames are changed for others.
use affine_rows::{Listed, Names};
use expr_tree::ExprFault;
use kernel_edits::{Change, changed_inames, changed_insns, changed_rows, expr_fault};
use kernel_ir::{Fault, Kernel, QuasiRow};
use std::alloc::Global;

/// What was made, or why not: rule 3 where a form passes its limit.
fn made<T>(alloc: Global, outcome: Result<T, ExprFault>) -> Result<T, Fault> {
    match outcome {
        Ok(made) => Ok(made),
        Err(fault) => Err(expr_fault(alloc, fault)),
    }
}

/// The domain rows with the change, and then further ones.
fn rows_with(
    alloc: Global,
    change: &Change<'_>,
    rows: &[QuasiRow],
    more: Listed<QuasiRow>,
) -> Result<Listed<QuasiRow>, Fault> {
    let mut all = made(alloc, changed_rows(alloc, change, rows))?;
    for row in more.into_vec() {
        all.push(row)?;
    }
    Ok(all)
}

/// The kernel with the change, with these names, and with further domain rows. Rules, which name no iname, stay as they are.
/// Rule 3 refuses where a form passes its limit.
pub(crate) fn changed_kernel(
    alloc: Global,
    kernel: &Kernel,
    change: &Change<'_>,
    names: Names,
    more: Listed<QuasiRow>,
) -> Result<Kernel, Fault> {
    let own = kernel.inames.as_slice();
    let inames = changed_inames(alloc, change.first, change.vars, change.put, own)?;
    let priority = made(
        alloc,
        change.changed_list(alloc, kernel.priority.as_slice()),
    )?;
    let rows = rows_with(alloc, change, kernel.rows.as_slice(), more)?;
    let insns = made(alloc, changed_insns(alloc, change, kernel.insns.as_slice()))?;
    let copied = kernel.copy(alloc)?;
    Ok(Kernel {
        names,
        inames,
        priority,
        rows,
        insns,
        ..copied
    })
}
