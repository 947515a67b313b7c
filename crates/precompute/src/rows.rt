//! The rows of a fill that nothing else implies.
use crate::fill::formed;
use crate::reads::accesses_at;
use crate::request::{Plan, Request};
use crate::shadows::{add_once, common_rows};
use affine_rows::{Form, Listed};
use expr_tree::Cell;
use implied_rows::implies;
use kernel_ir::{Fault, Insn, Kernel, QuasiRow, copy_row, copy_rows};
use kernel_rules::{Access, number, rows_of_insn};
use quasi_forms::{FormFault, small_sum_of};
use std::alloc::{AllocError, Global};

/// The entry of the shape of an array in a place, 0 where it has no such place.
fn entry_of(alloc: Global, shape: &[Form], at: usize) -> Result<Form, AllocError> {
    match shape.get(at) {
        None => Ok(number(alloc, 0)),
        Some(entry) => entry.copy(alloc),
    }
}

/// The entry of the shape of an array or temporary in a place, 0 where it has no such place.
fn extent_of(alloc: Global, kernel: &Kernel, cell: Cell, at: usize) -> Result<Form, AllocError> {
    match cell {
        Cell::Array(array) => match kernel.arrays.get(array as usize) {
            None => Ok(number(alloc, 0)),
            Some(array) => entry_of(alloc, array.shape.as_slice(), at),
        },
        Cell::Temp(temp) => match kernel.temps.get(temp as usize) {
            None => Ok(number(alloc, 0)),
            Some(temp) => {
                let extent = temp.shape.get(at).copied().unwrap_or(0);
                Ok(number(alloc, i64::from(extent)))
            }
        },
    }
}

/// A form that is at least 0.
fn at_least_zero(form: Form) -> QuasiRow {
    QuasiRow { form, equal: false }
}

/// Adds the in-bounds rows of one place: it is at least 0, and below the extent.
fn add_in_bounds(
    alloc: Global,
    place: &Form,
    extent: &Form,
    made: &mut Listed<QuasiRow>,
) -> Result<(), FormFault> {
    let last = small_sum_of(alloc, extent, -1, &number(alloc, 1))?;
    let room = small_sum_of(alloc, &last, -1, place)?;
    add_once(at_least_zero(place.copy(alloc)?), made)?;
    add_once(at_least_zero(room), made)?;
    Ok(())
}

/// Adds the in-bounds rows of a read, place by place.
fn add_read_rows(
    alloc: Global,
    kernel: &Kernel,
    read: &Access,
    made: &mut Listed<QuasiRow>,
) -> Result<(), Fault> {
    let place = read.place.as_slice();
    for at in 0..place.len() {
        let extent = extent_of(alloc, kernel, read.cell, at)?;
        formed(alloc, add_in_bounds(alloc, &place[at], &extent, made))?;
    }
    Ok(())
}

/// Rows, and then others.
fn joined(
    alloc: Global,
    rows: &[QuasiRow],
    others: &[QuasiRow],
) -> Result<Listed<QuasiRow>, AllocError> {
    let mut made = copy_rows(alloc, rows)?;
    for row in others {
        made.push(copy_row(alloc, row)?)?;
    }
    Ok(made)
}

/// Whether context, the fill's domain rows and the other rows imply a row.
fn is_implied(
    alloc: Global,
    kernel: &Kernel,
    fill: &Insn,
    others: Listed<QuasiRow>,
    row: &QuasiRow,
) -> Result<bool, Fault> {
    let copied = fill.copy(alloc)?;
    let own = Insn {
        rows: others,
        ..copied
    };
    let mut asked = rows_of_insn(alloc, kernel, &own, &[], true)?;
    implies(alloc, &mut asked, row)
}

/// The rows of which each in order is dropped where context, the fill's domain rows and the other rows left imply it.
fn rows_left(
    alloc: Global,
    kernel: &Kernel,
    fill: &Insn,
    rows: &[QuasiRow],
) -> Result<Listed<QuasiRow>, Fault> {
    let mut left = Listed::new(alloc);
    for at in 0..rows.len() {
        let others = joined(alloc, left.as_slice(), &rows[at + 1..])?;
        if !is_implied(alloc, kernel, fill, others, &rows[at])? {
            left.push(copy_row(alloc, &rows[at])?)?;
        }
    }
    Ok(left)
}

/// The own rows of the fill, which has none yet and stands at the place of the first use in a kernel that passes no limit: the rows of
/// its users that all of them imply, and the in-bounds rows of its reads, without those that are implied.
pub(crate) fn fill_rows(
    alloc: Global,
    request: Request<'_>,
    plan: &Plan,
    kernel: &Kernel,
) -> Result<Listed<QuasiRow>, Fault> {
    let mut rows = common_rows(alloc, request, plan)?;
    let Some(fill) = kernel.insns.get(request.first.at) else {
        return Ok(rows);
    };
    let accesses = accesses_at(alloc, kernel, request.first.at)?;
    for access in accesses.as_slice() {
        if !access.store {
            add_read_rows(alloc, kernel, access, &mut rows)?;
        }
    }
    rows_left(alloc, kernel, fill, rows.as_slice())
}
