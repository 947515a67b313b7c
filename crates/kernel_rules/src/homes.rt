//! The home inames of temporaries.
use crate::access::{Access, same_cell};
use affine_rows::Listed;
use expr_tree::Cell;
use kernel_ir::{Insn, Kernel};
use quasi_forms::is_among;
use std::alloc::{AllocError, Global};

/// Whether an instruction with these accesses uses the array or temporary.
fn uses(accesses: &[Access], cell: Cell) -> bool {
    accesses.iter().any(|access| same_cell(access.cell, cell))
}

fn has_user(accesses: &[Listed<Access>], cell: Cell) -> bool {
    accesses.iter().any(|own| uses(own.as_slice(), cell))
}

/// Whether all users of the array or temporary have the iname.
fn all_users_have(insns: &[Insn], accesses: &[Listed<Access>], cell: Cell, iname: u32) -> bool {
    for at in 0..insns.len().min(accesses.len()) {
        if uses(accesses[at].as_slice(), cell) && !is_among(insns[at].inames.as_slice(), iname) {
            return false;
        }
    }
    true
}

/// The home inames of a temporary of a kernel that uses no rules, whose instructions have these accesses: the inames that all
/// its users have, in declared order, and none where it has no user. An array has none.
pub fn home_inames(
    alloc: Global,
    plain: &Kernel,
    accesses: &[Listed<Access>],
    cell: Cell,
) -> Result<Vec<u32>, AllocError> {
    let mut homes = Vec::new(alloc);
    if matches!(cell, Cell::Array(_)) || !has_user(accesses, cell) {
        return Ok(homes);
    }
    for iname in plain.inames.as_slice() {
        if all_users_have(plain.insns.as_slice(), accesses, cell, iname.var) {
            homes.push(iname.var)?;
        }
    }
    Ok(homes)
}
