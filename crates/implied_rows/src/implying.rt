//! Whether rows imply a row, floors included.
ghost use Rattle.std.specs.Prelude.{◌≡◌, ◌≤◌, length};

use affine_rows::Point;
use elimination::{Found, find_point};
use kernel_ir::{Fault, QuasiRow};
use kernel_rules::{Asked, MOST_VARIABLES, built, form_fault, number, set_fault};
use quasi_forms::{Difference, FormFault, renumber};
use std::alloc::{AllocError, Global};

/// The row is at most -1, over the places of the variables.
fn below(alloc: Global, row: &QuasiRow, vars: &[u32]) -> Result<Difference, AllocError>
    requires { length vars.now ≤ 128 }
{
    Ok(Difference {
        form: number(alloc, -1),
        less: renumber(alloc, &row.form, vars)?,
        equal: false,
    })
}

/// The row is at least 1, over the places of the variables.
fn above(alloc: Global, row: &QuasiRow, vars: &[u32]) -> Result<Difference, AllocError>
    requires { length vars.now ≤ 128 }
{
    Ok(Difference {
        form: renumber(alloc, &row.form, vars)?,
        less: number(alloc, 1),
        equal: false,
    })
}

/// A rational point of the rows and one more, which is the last and is taken out again.
fn point_with(alloc: Global, asked: &mut Asked, row: Difference) -> Result<Option<Point>, Fault>
    ensures { asked.new.vars ≡ asked.old.vars }
{
    asked.rows.push(row).map_err(AllocError::from)?;
    let system = built(alloc, asked);
    let _ = asked.rows.pop();
    match find_point(alloc, &system?) {
        Ok(Found::Empty) => Ok(None),
        Ok(Found::Point(point)) => Ok(Some(point)),
        Err(fault) => Err(set_fault(alloc, fault)),
    }
}

/// A point of the rows at which the row does not hold, if there is one: below 0, and else for an equality above 0. The rows stay as they
/// were. Rules 18 and 19 come as for `find_point`, and rule 18 where there are more than 128 variables.
pub fn point_against(
    alloc: Global,
    asked: &mut Asked,
    row: &QuasiRow,
) -> Result<Option<Point>, Fault> {
    if asked.vars.len() > MOST_VARIABLES {
        return Err(form_fault(alloc, FormFault::Limit));
    }
    let least = below(alloc, row, &asked.vars)?;
    let point = point_with(alloc, asked, least)?;
    if point.is_some() || !row.equal {
        return Ok(point);
    }
    let greatest = above(alloc, row, &asked.vars)?;
    point_with(alloc, asked, greatest)
}

/// Whether the rows imply the row; of an equality, both halves, the one below 0 first.
pub fn implies(alloc: Global, asked: &mut Asked, row: &QuasiRow) -> Result<bool, Fault> {
    Ok(point_against(alloc, asked, row)?.is_none())
}
