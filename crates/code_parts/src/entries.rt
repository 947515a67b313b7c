//! The entries of bounds: the rows of each instruction, with equal texts written once.
use crate::sides::Side;
use affine_rows::{Listed, Row};
use loop_bounds::InsnRows;
use std::alloc::{AllocError, Global};

/// Whether two rows have the same text as bounds of one variable.
fn same_row(left: &Row, right: &Row) -> bool {
    left.constant == right.constant && left.terms.as_slice() == right.terms.as_slice()
}

/// The number that a tight row sets for its only variable.
fn number_of(side: Side, row: &Row) -> Option<i64> {
    if row.terms.as_slice().len() != 1 {
        return None;
    }
    match side {
        Side::Lower => Some(row.constant.saturating_neg()),
        Side::Upper => Some(row.constant),
    }
}

/// The place and the number of the first row that sets one.
fn first_number(side: Side, rows: &[Row]) -> Option<(usize, i64)> {
    for at in 0..rows.len() {
        if let Some(number) = number_of(side, &rows[at]) {
            return Some((at, number));
        }
    }
    None
}

/// Adds a row, unless its text is there. Of numbers the deciding one stands, in the first one's place.
fn add_row(alloc: Global, side: Side, row: &Row, made: &mut Vec<Row>) -> Result<(), AllocError> {
    if let Some(number) = number_of(side, row) {
        if let Some((at, first)) = first_number(side, made) {
            if at < made.len() && side.decides(number, first) {
                made[at] = row.copy(alloc)?;
            }
            return Ok(());
        }
    }
    if !made.iter().any(|other| same_row(other, row)) {
        made.push(row.copy(alloc)?)?;
    }
    Ok(())
}

/// The rows that are written of one instruction.
fn written_rows(alloc: Global, side: Side, rows: &[Row]) -> Result<Listed<Row>, AllocError> {
    let mut made = Vec::new(alloc);
    for row in rows {
        add_row(alloc, side, row, &mut made)?;
    }
    Ok(Listed::from_vec(made))
}

/// The number that the rows of an instruction set, where there is one row and it sets one.
fn only_number(side: Side, rows: &[Row]) -> Option<i64> {
    match rows {
        [row] => number_of(side, row),
        _ => None,
    }
}

fn same_rows(left: &[Row], right: &[Row]) -> bool {
    if left.len() != right.len() {
        return false;
    }
    for at in 0..left.len() {
        if !same_row(&left[at], &right[at]) {
            return false;
        }
    }
    true
}

/// The place and the number of the first rows that set one.
fn first_only_number(side: Side, lists: &[InsnRows]) -> Option<(usize, i64)> {
    for at in 0..lists.len() {
        if let Some(number) = only_number(side, lists[at].rows.as_slice()) {
            return Some((at, number));
        }
    }
    None
}

/// Adds the rows of an instruction, unless their text is there. Of numbers the deciding one stands, in the first one's
/// place: below the least, above the greatest, since the loop is over what each instruction needs.
fn add_list(side: Side, rows: InsnRows, made: &mut Vec<InsnRows>) -> Result<(), AllocError> {
    if let Some(number) = only_number(side, rows.rows.as_slice()) {
        if let Some((at, first)) = first_only_number(side, made) {
            if at < made.len() && side.opposite().decides(number, first) {
                made[at] = rows;
            }
            return Ok(());
        }
    }
    if !made.iter().any(|other| same_rows(other.rows.as_slice(), rows.rows.as_slice())) {
        made.push(rows)?;
    }
    Ok(())
}

/// The rows that are written of a bound, instruction by instruction.
pub fn bound_entries(
    alloc: Global,
    side: Side,
    all: &[InsnRows],
) -> Result<Listed<InsnRows>, AllocError> {
    let mut made = Vec::new(alloc);
    for given in all {
        let rows = written_rows(alloc, side, given.rows.as_slice())?;
        add_list(
            side,
            InsnRows {
                insn: given.insn,
                rows,
            },
            &mut made,
        )?;
    }
    Ok(Listed::from_vec(made))
}
