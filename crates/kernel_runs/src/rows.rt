//! The rows of instructions and of reductions.
use affine_rows::Listed;
use kernel_ir::{Insn, Kernel, QuasiRow, copy_row};
use quasi_forms::{mentions_one, mentions_only};
use std::alloc::{AllocError, Global};

/// The variables of both lists.
pub fn both(alloc: Global, left: &[u32], right: &[u32]) -> Result<Vec<u32>, AllocError> {
    let mut all = Vec::from_slice(alloc, left)?;
    all.extend_from_slice(right)?;
    Ok(all)
}

/// The rows of an instruction: the domain rows that mention only its inames and parameters, and then its own.
pub fn rows_of(
    alloc: Global,
    kernel: &Kernel,
    insn: &Insn,
) -> Result<Listed<QuasiRow>, AllocError> {
    let scope = both(alloc, kernel.params.as_slice(), insn.inames.as_slice())?;
    let mut rows = Listed::new(alloc);
    for row in kernel.rows.as_slice() {
        if mentions_only(&scope, row.form.quasi()) {
            rows.push(copy_row(alloc, row)?)?;
        }
    }
    for row in insn.rows.as_slice() {
        rows.push(copy_row(alloc, row)?)?;
    }
    Ok(rows)
}

/// The rows of a reduction over these inames: the domain rows that mention one of them, and otherwise only what is in scope.
pub fn rows_over(
    alloc: Global,
    kernel: &Kernel,
    scope: &[u32],
    inames: &[u32],
) -> Result<Listed<QuasiRow>, AllocError> {
    let within = both(alloc, scope, inames)?;
    let known = both(alloc, kernel.params.as_slice(), &within)?;
    let mut rows = Listed::new(alloc);
    for row in kernel.rows.as_slice() {
        if mentions_one(inames, row.form.quasi()) && mentions_only(&known, row.form.quasi()) {
            rows.push(copy_row(alloc, row)?)?;
        }
    }
    Ok(rows)
}
