//! Between which numbers an iname is in the rows of an instruction, where the parameters have numbers.
use crate::ends::{Ends, OPEN, Span};
use crate::numbers::Numbers;
use affine_rows::{Row, Vars};
use elimination::shadow;
use kernel_ir::{Fault, Insn, Kernel};
use kernel_rules::{Repeated, built, rows_of_insn, set_fault};
use quasi_forms::place_in;
use std::alloc::{AllocError, Global};

/// The constant and the terms of a row over these variables, all but the one at a place. The entries of a row are at most
/// 2^62, those of a row that is asked are of at most 128 variables, and parameters have numbers of 32 bits, so the sum is exact.
fn number_at(row: &Row, vars: &[u32], numbers: &Numbers, place: u32) -> i128 {
    let mut sum = i128::from(row.constant);
    for &(at, factor) in row.terms.as_slice() {
        if at != place {
            let number = match vars.get(at as usize) {
                Some(var) => numbers.var(*var),
                None => 0,
            };
            sum = sum.saturating_add(i128::from(factor).saturating_mul(i128::from(number)));
        }
    }
    sum
}

/// The factor of the variable at a place.
fn factor_at(row: &Row, place: u32) -> i64 {
    for &(at, factor) in row.terms.as_slice() {
        if at == place {
            return factor;
        }
    }
    0
}

/// What rows say of the variable at a place, where the others are parameters.
fn ends_of(rows: &[Row], vars: &[u32], numbers: &Numbers, place: u32) -> Ends {
    let mut ends = OPEN;
    for row in rows {
        let number = number_at(row, vars, numbers, place);
        ends = ends.with_row(factor_at(row, place), number, row.equal);
    }
    ends
}

/// The places of the parameters, which stand first, and one more.
fn kept_places(alloc: Global, params: usize, place: u32) -> Result<Vec<u32>, AllocError> {
    let mut keep = Vec::new(alloc);
    for at in 0..params {
        keep.push(at.min(u32::MAX as usize) as u32)?;
    }
    keep.push(place)?;
    Ok(keep)
}

/// The integers from the least to the greatest rational number that an iname has in the rows of its instruction, those of its
/// reductions beside them, none where it has none.
///
/// All other inames and the floors are cancelled, as the check that an iname has bounds cancels them. So rules 18 and 19, by
/// which a query that passes a limit is refused, do not come for a kernel that was checked.
pub fn span_in(
    alloc: Global,
    kernel: &Kernel,
    insn: &Insn,
    own: &Repeated,
    numbers: &Numbers,
) -> Result<Option<Span>, Fault> {
    let asked = rows_of_insn(alloc, kernel, insn, own.folds.as_slice(), false)?;
    let system = built(alloc, &asked)?;
    let place = place_in(&asked.vars, own.iname);
    let keep = kept_places(alloc, kernel.params.len(), place)?;
    match shadow(alloc, &system, &keep) {
        Ok(last) => Ok(ends_of(last.rows.as_slice(), &asked.vars, numbers, place).span()),
        Err(fault) => Err(set_fault(alloc, fault)),
    }
}
