//! Rows over the places of their variables in a list.
use affine_rows::{Listed, Row, Terms};
use std::alloc::{AllocError, Global};

/// A place as a number of 32 bits; 2^32 - 1 for all later ones, which no list of a kernel has.
pub fn number_to(at: usize) -> u32 {
    at.min(u32::MAX as usize) as u32
}

/// The factor of a variable, 0 where it does not occur.
pub fn factor_of(terms: &[(u32, i64)], var: u32) -> i64 {
    for term in terms {
        if term.0 == var {
            return term.1;
        }
    }
    0
}

fn push_factor(made: &mut Terms, at: u32, factor: i64) -> Result<(), AllocError> {
    if factor != 0 {
        made.push((at, factor))?;
    }
    Ok(())
}

/// The row over the places of the variables.
pub(crate) fn placed_row(alloc: Global, vars: &[u32], row: &Row) -> Result<Row, AllocError> {
    let mut terms = Terms::new(alloc);
    for at in 0..vars.len() {
        push_factor(
            &mut terms,
            number_to(at),
            factor_of(row.terms.as_slice(), vars[at]),
        )?;
    }
    Ok(Row {
        constant: row.constant,
        terms,
        equal: row.equal,
    })
}

/// The rows over the places of the variables.
pub(crate) fn placed_rows(
    alloc: Global,
    vars: &[u32],
    rows: &[Row],
) -> Result<Listed<Row>, AllocError> {
    let mut made = Listed::new(alloc);
    for row in rows {
        made.push(placed_row(alloc, vars, row)?)?;
    }
    Ok(made)
}

/// Adds copies of rows.
pub(crate) fn add_copies(
    alloc: Global,
    rows: &[Row],
    made: &mut Listed<Row>,
) -> Result<(), AllocError> {
    for row in rows {
        made.push(row.copy(alloc)?)?;
    }
    Ok(())
}
