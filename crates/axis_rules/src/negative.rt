//! Inames that may be below 0.
use crate::refused::negative;
use affine_rows::{Form, Listed};
use elimination::{Found, find_point};
use kernel_ir::{Fault, Insn, Kernel};
use kernel_rules::{built, rows_of_insn, set_fault};
use quasi_forms::{Difference, is_among, place_in};
use std::alloc::{AllocError, Global};

/// The variable is below 0.
fn below_zero(alloc: Global, place: u32) -> Result<Difference, AllocError> {
    Ok(Difference {
        form: Form::affine(alloc, -1, Listed::of_one(alloc, (place, -1))?),
        less: Form::affine(alloc, 0, Listed::new(alloc)),
        equal: false,
    })
}

fn add_row(rows: &mut Vec<Difference>, row: Difference) -> Result<(), AllocError> {
    rows.push(row)?;
    Ok(())
}

/// Rule 24 of an instruction that has the iname: its rows and the context with the iname below 0 have a rational point.
fn check_insn(alloc: Global, kernel: &Kernel, insn: &Insn, iname: u32) -> Result<(), Fault> {
    let mut asked = rows_of_insn(alloc, kernel, insn, &[], true)?;
    let place = place_in(&asked.vars, iname);
    add_row(&mut asked.rows, below_zero(alloc, place)?)?;
    let system = built(alloc, &asked)?;
    match find_point(alloc, &system) {
        Ok(Found::Empty) => Ok(()),
        Ok(Found::Point(point)) => Err(negative(alloc, kernel, insn, iname, &asked.vars, point)),
        Err(fault) => Err(set_fault(alloc, fault)),
    }
}

/// Rule 24 refuses the first instruction with the iname in which a number of it below 0 is not excluded.
pub fn check_not_negative(alloc: Global, kernel: &Kernel, iname: u32) -> Result<(), Fault> {
    for insn in kernel.insns.as_slice() {
        if is_among(insn.inames.as_slice(), iname) {
            check_insn(alloc, kernel, insn, iname)?;
        }
    }
    Ok(())
}
