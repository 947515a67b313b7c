//! The rows of a loop that hold in each turn.
use crate::loops::InsnRows;
use crate::placed::{add_copies, placed_row, placed_rows};
use crate::queries::{implied_by, width_of};
use crate::there::{There, scope};
use affine_rows::{Listed, Row};
use kernel_ir::{Fault, Kernel};
use std::alloc::{AllocError, Global};

/// Known rows, and those of an instruction on a side, over the places of variables.
fn rows_there(
    alloc: Global,
    vars: &[u32],
    known: &[Row],
    own: &[Row],
) -> Result<Listed<Row>, AllocError> {
    let mut made = placed_rows(alloc, vars, known)?;
    let own = placed_rows(alloc, vars, own)?;
    add_copies(alloc, own.as_slice(), &mut made)?;
    Ok(made)
}

/// Whether for each instruction the known rows and its own imply the row.
fn always_holds(
    alloc: Global,
    vars: &[u32],
    known: &[Row],
    all: &[InsnRows],
    row: &Row,
) -> Result<bool, Fault> {
    let width = width_of(alloc, vars)?;
    let row = placed_row(alloc, vars, row)?;
    for given in all {
        let rows = rows_there(alloc, vars, known, given.rows.as_slice())?;
        if !implied_by(alloc, rows.as_slice(), &row, width)? {
            return Ok(false);
        }
    }
    Ok(true)
}

/// Adds those rows that always hold.
fn add_holding(
    alloc: Global,
    vars: &[u32],
    known: &[Row],
    all: &[InsnRows],
    rows: &[Row],
    made: &mut Listed<Row>,
) -> Result<(), Fault> {
    for row in rows {
        if always_holds(alloc, vars, known, all, row)? {
            made.push(row.copy(alloc)?)?;
        }
    }
    Ok(())
}

/// The rows of a side that for each instruction of the loop the rows known outside and its rows of that side imply. Context
/// is not asked.
pub(crate) fn known_rows(
    alloc: Global,
    kernel: &Kernel,
    within: &There,
    all: &[InsnRows],
) -> Result<Listed<Row>, Fault> {
    let vars = scope(alloc, kernel, within)?;
    let mut made = Listed::new(alloc);
    for given in all {
        add_holding(
            alloc,
            vars.as_slice(),
            within.known.as_slice(),
            all,
            given.rows.as_slice(),
            &mut made,
        )?;
    }
    Ok(made)
}
