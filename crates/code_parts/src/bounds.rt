//! Bounds made of rows.
ghost use Rattle.std.specs.Prelude.{◌≤◌, sum_by, unsigned_abs, IfOk, OnOk, ◌+◌};

use crate::numbers::code_number;
use crate::sides::Side;
use crate::written::is_narrow_row;
use affine_rows::{Form, Listed, Row};
use code_tree::Bound;
use kernel_ir::Kernel;
use loop_bounds::{InsnRows, factor_of};
use std::alloc::{AllocError, Global};

fn turned(number: i64, turn: bool) -> i64
    ensures { unsigned_abs result ≤ unsigned_abs number }
{
    if turn {
        number.saturating_neg()
    } else {
        number
    }
}

/// Adds a term, unless it is of the variable.
fn add_other(
    kernel: &Kernel,
    vars: &[u32],
    term: (u32, i64),
    var: u32,
    turn: bool,
    made: &mut Listed<(u32, i64)>,
) -> Result<(), AllocError>
    ensures { OnOk result (sum_by (λ t. unsigned_abs t.1) made.new ≤ sum_by (λ t. unsigned_abs t.1) made.old + unsigned_abs term.1) }
{
    if term.0 != var {
        made.push((code_number(kernel, vars, term.0), turned(term.1, turn)))?;
    }
    Ok(())
}

/// The terms of other variables over the names of a code, with their signs turned or not.
fn other_terms(
    alloc: Global,
    kernel: &Kernel,
    vars: &[u32],
    terms: &[(u32, i64)],
    var: u32,
    turn: bool,
) -> Result<Listed<(u32, i64)>, AllocError>
    ensures { IfOk result (λ made. sum_by (λ t. unsigned_abs t.1) made ≤ sum_by (λ t. unsigned_abs t.1) terms.now) }
{
    let mut made = Listed::new(alloc);
    for term in terms {
        add_other(kernel, vars, *term, var, turn, &mut made)?;
    }
    Ok(made)
}

/// The row without its variable, with its sign turned or not, if it is within the limits of what is written.
fn rest_of(
    alloc: Global,
    kernel: &Kernel,
    vars: &[u32],
    row: &Row,
    var: u32,
    turn: bool,
) -> Result<Form, AllocError> {
    let terms = other_terms(alloc, kernel, vars, row.terms.as_slice(), var, turn)?;
    if !is_narrow_row(row) {
        return Ok(Form::affine(alloc, 0, Listed::new(alloc)));
    }
    Ok(Form::affine(alloc, turned(row.constant, turn), terms))
}

/// The bound that a row sets for its variable.
fn row_bound(
    alloc: Global,
    kernel: &Kernel,
    vars: &[u32],
    row: &Row,
    var: u32,
) -> Result<Bound, AllocError> {
    let factor = factor_of(row.terms.as_slice(), var);
    let rest = rest_of(alloc, kernel, vars, row, var, factor == 1)?;
    if factor == 1 || factor == -1 {
        return Ok(Bound::Form(rest));
    }
    if factor > 0 {
        return Ok(Bound::MinusFloorOf(rest, factor));
    }
    Ok(Bound::FloorOf(rest, factor.saturating_neg().max(1)))
}

/// One bound, or the greatest of lower ones, or the least of upper ones.
fn joined(side: Side, bounds: Listed<Bound>) -> Bound {
    let mut all = bounds.into_vec();
    if all.len() == 1 {
        if let Some(one) = all.pop() {
            return one;
        }
    }
    match side {
        Side::Lower => Bound::Greatest(Listed::from_vec(all)),
        Side::Upper => Bound::Least(Listed::from_vec(all)),
    }
}

/// The bound that the rows of an instruction set.
fn insn_bound(
    alloc: Global,
    kernel: &Kernel,
    vars: &[u32],
    side: Side,
    rows: &[Row],
    var: u32,
) -> Result<Bound, AllocError> {
    let mut bounds = Listed::new(alloc);
    for row in rows {
        bounds.push(row_bound(alloc, kernel, vars, row, var)?)?;
    }
    Ok(joined(side, bounds))
}

/// The bound of a variable over the names of a code, by the code's variables: below the least of what the instructions need,
/// above the greatest.
pub fn bound_over(
    alloc: Global,
    kernel: &Kernel,
    vars: &[u32],
    side: Side,
    entries: &[InsnRows],
    var: u32,
) -> Result<Bound, AllocError> {
    let mut bounds = Listed::new(alloc);
    for entry in entries {
        bounds.push(insn_bound(alloc, kernel, vars, side, entry.rows.as_slice(), var)?)?;
    }
    Ok(joined(side.opposite(), bounds))
}
