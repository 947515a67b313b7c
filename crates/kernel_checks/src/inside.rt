//! Rule 14: the subscripts of accesses.
ghost use Rattle.std.specs.Prelude.{◌≤◌, length};

use crate::searching::{at_least, point_with};
use crate::telling::{Side, out_of_bounds};
use affine_rows::Form;
use expr_tree::Cell;
use kernel_ir::{Fault, Kernel};
use kernel_rules::{Use, number, rows_of_insn};
use quasi_forms::renumber;
use std::alloc::{AllocError, Global};

/// The extent of an array or temporary in a place, over the variables; 0 where it has no such place.
fn extent(
    alloc: Global,
    kernel: &Kernel,
    cell: Cell,
    place: usize,
    vars: &[u32],
) -> Result<Form, AllocError>
    requires { length vars.now ≤ 128 }
{
    match cell {
        Cell::Array(at) => match kernel.arrays.get(at as usize) {
            None => Ok(number(alloc, 0)),
            Some(array) => match array.shape.get(place) {
                None => Ok(number(alloc, 0)),
                Some(entry) => renumber(alloc, entry, vars),
            },
        },
        Cell::Temp(at) => match kernel.temps.get(at as usize) {
            None => Ok(number(alloc, 0)),
            Some(temp) => match temp.shape.get(place) {
                None => Ok(number(alloc, 0)),
                Some(entry) => Ok(number(alloc, i64::from(*entry))),
            },
        },
    }
}

/// Rule 14 of one subscript on one side: no point has it below 0, or not below its extent.
fn check_side(
    alloc: Global,
    kernel: &Kernel,
    used: Use<'_>,
    place: usize,
    subscript: &Form,
    side: Side,
) -> Result<(), Fault> {
    let mut asked = rows_of_insn(alloc, kernel, used.insn, used.access.folds.as_slice(), true)?;
    let form = renumber(alloc, subscript, &asked.vars)?;
    let row = match side {
        Side::Below => at_least(number(alloc, -1), form),
        Side::Above => at_least(
            form,
            extent(alloc, kernel, used.access.cell, place, &asked.vars)?,
        ),
    };
    match point_with(alloc, &mut asked, row)? {
        None => Ok(()),
        Some(point) => Err(out_of_bounds(alloc, kernel, used, place, side, &asked.vars, point)),
    }
}

/// Rule 14 of an access, place by place.
pub(crate) fn check_access(alloc: Global, kernel: &Kernel, used: Use<'_>) -> Result<(), Fault> {
    let subscripts = used.access.place.as_slice();
    for place in 0..subscripts.len() {
        check_side(alloc, kernel, used, place, &subscripts[place], Side::Below)?;
        check_side(alloc, kernel, used, place, &subscripts[place], Side::Above)?;
    }
    Ok(())
}
