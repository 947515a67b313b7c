//! Rules 17 and 16: the bounds of inames.
use crate::searching::{at_least, point_with};
use crate::telling::{Side, index_range, unbounded};
use affine_rows::Listed;
use kernel_ir::{Fault, Insn, Kernel};
use kernel_rules::{
    MOST_VARIABLES, Repeated, built, number, repeated_inames, rows_of_insn, set_fault, variable,
};
use quasi_forms::place_in;
use set_query::bounds;
use std::alloc::{AllocError, Global};

/// The least number of an iname. The greatest is one less than this negated.
const LEAST: i64 = -2_147_483_648;

/// The places of the parameters, which stand first among the variables of a system.
fn param_places(alloc: Global, kernel: &Kernel) -> Result<Listed<u32>, AllocError> {
    let mut places = Listed::new(alloc);
    for at in 0..kernel.params.len().min(MOST_VARIABLES) {
        places.push(at as u32)?;
    }
    Ok(places)
}

/// Rule 17: with the other inames and the floors cancelled, the rows bound the iname from both sides.
fn check_bounded(alloc: Global, kernel: &Kernel, insn: &Insn, own: &Repeated) -> Result<(), Fault> {
    let asked = rows_of_insn(alloc, kernel, insn, own.folds.as_slice(), false)?;
    let system = built(alloc, &asked)?;
    let params = param_places(alloc, kernel)?;
    let place = place_in(&asked.vars, own.iname);
    match bounds(alloc, &system, params.as_slice(), place) {
        Ok(found) => {
            if found.lower.is_empty() {
                return Err(unbounded(alloc, kernel, insn, own.iname, "lower"));
            }
            if found.upper.is_empty() {
                return Err(unbounded(alloc, kernel, insn, own.iname, "upper"));
            }
            Ok(())
        }
        Err(fault) => Err(set_fault(alloc, fault)),
    }
}

/// Rule 16 on one side: no point has the iname below -2^31, or above 2^31-1.
fn check_side(
    alloc: Global,
    kernel: &Kernel,
    insn: &Insn,
    own: &Repeated,
    side: Side,
) -> Result<(), Fault> {
    let mut asked = rows_of_insn(alloc, kernel, insn, own.folds.as_slice(), true)?;
    let iname = variable(alloc, &asked.vars, own.iname)?;
    let row = match side {
        Side::Below => at_least(number(alloc, LEAST - 1), iname),
        Side::Above => at_least(iname, number(alloc, -LEAST)),
    };
    match point_with(alloc, &mut asked, row)? {
        None => Ok(()),
        Some(point) => Err(index_range(alloc, kernel, insn, own.iname, side, &asked.vars, point)),
    }
}

/// Rules 17 and 16, iname by iname, of those of the instruction and then those of its reductions.
pub(crate) fn check_inames(alloc: Global, kernel: &Kernel, insn: &Insn) -> Result<(), Fault> {
    for own in &repeated_inames(alloc, kernel, insn)? {
        check_bounded(alloc, kernel, insn, own)?;
        check_side(alloc, kernel, insn, own, Side::Below)?;
        check_side(alloc, kernel, insn, own, Side::Above)?;
    }
    Ok(())
}
