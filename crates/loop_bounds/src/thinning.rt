//! Rows that others imply.
use crate::placed::{add_copies, placed_rows};
use crate::queries::implied_with_context;
use crate::there::{There, scope};
use affine_rows::{Listed, Row};
use kernel_ir::{Fault, Kernel};
use std::alloc::{AllocError, Global};

/// The rows of three lists, one list after the other.
fn joined(
    alloc: Global,
    first: &[Row],
    second: &[Row],
    third: &[Row],
) -> Result<Listed<Row>, AllocError> {
    let mut made = Listed::new(alloc);
    add_copies(alloc, first, &mut made)?;
    add_copies(alloc, second, &mut made)?;
    add_copies(alloc, third, &mut made)?;
    Ok(made)
}

/// The places of those rows that are left where each in order is dropped that context, known rows and the others left imply.
fn places_left(
    alloc: Global,
    kernel: &Kernel,
    vars: &[u32],
    known: &[Row],
    rows: &[Row],
) -> Result<Listed<usize>, Fault> {
    let mut left = Listed::new(alloc);
    let mut places = Listed::new(alloc);
    for at in 0..rows.len() {
        let others = joined(alloc, known, left.as_slice(), &rows[at + 1..])?;
        if !implied_with_context(alloc, kernel, vars, others.as_slice(), &rows[at])? {
            left.push(rows[at].copy(alloc)?)?;
            places.push(at)?;
        }
    }
    Ok(places)
}

fn add_at(
    alloc: Global,
    rows: &[Row],
    at: usize,
    made: &mut Listed<Row>,
) -> Result<(), AllocError> {
    if let Some(row) = rows.get(at) {
        made.push(row.copy(alloc)?)?;
    }
    Ok(())
}

fn rows_at(alloc: Global, rows: &[Row], places: &[usize]) -> Result<Listed<Row>, AllocError> {
    let mut made = Listed::new(alloc);
    for at in places {
        add_at(alloc, rows, *at, &mut made)?;
    }
    Ok(made)
}

/// The rows that are left where each in order is dropped that context, known rows and the others left imply; the first one
/// where none would be left.
pub(crate) fn chosen_rows(
    alloc: Global,
    kernel: &Kernel,
    there: &There,
    rows: &[Row],
) -> Result<Listed<Row>, Fault> {
    let vars = scope(alloc, kernel, there)?;
    let known = placed_rows(alloc, vars.as_slice(), there.known.as_slice())?;
    let placed = placed_rows(alloc, vars.as_slice(), rows)?;
    let places = places_left(
        alloc,
        kernel,
        vars.as_slice(),
        known.as_slice(),
        placed.as_slice(),
    )?;
    if places.is_empty() {
        return Ok(rows_at(alloc, rows, &[0])?);
    }
    Ok(rows_at(alloc, rows, places.as_slice())?)
}
