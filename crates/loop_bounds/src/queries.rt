//! Systems, and what they imply.
ghost use Rattle.std.specs.Prelude.{◌≡◌, ◌≤◌, length, IfOk};
ghost use Rattle.affine_rows.specs.Rows.{IsRow};
ghost use Rattle.elimination.specs.Stages.{IsSystem};

use crate::placed::add_copies;
use affine_rows::{Listed, Row, System};
use elimination::SetFault;
use kernel_ir::{Fault, Kernel};
use kernel_rules::{add_context, kept_system, set_fault};
use quasi_forms::{Difference, FormFault, system_over};
use set_query::implied;
use std::alloc::{AllocError, Global};

/// A system has at most so many variables.
const MOST_VARIABLES: usize = 128;

/// A system that is too wide before any stage.
pub(crate) fn too_wide(alloc: Global) -> Fault {
    set_fault(alloc, SetFault::TooWide { stage: 0, row: 0 })
}

/// How many variables there are, if a system may have so many.
pub(crate) fn width_of(alloc: Global, vars: &[u32]) -> Result<u32, Fault>
    ensures width { IfOk result (λ width. width ≡ length vars.now) }
    ensures few { IfOk result (λ width. width ≤ 128) }
{
    if vars.len() > MOST_VARIABLES {
        return Err(too_wide(alloc));
    }
    Ok(vars.len() as u32)
}

/// The system, if it has at most 128 variables.
fn few(alloc: Global, system: System) -> Result<System, Fault>
    ensures { IfOk result (λ few. few.width ≤ 128) }
{
    if system.width as usize > MOST_VARIABLES {
        return Err(too_wide(alloc));
    }
    Ok(system)
}

/// The rows over forms as rows of a system.
fn rows_over(alloc: Global, rows: &[Difference], width: u32) -> Result<System, Fault>
    requires { width ≤ 128 }
    ensures { IfOk result (λ system. system.width ≤ 128) }
{
    match system_over(alloc, rows, width) {
        Ok(system) => few(alloc, system),
        Err(FormFault::OutOfMemory) => Err(Fault::OutOfMemory),
        Err(FormFault::Limit | FormFault::NotAffine) => Err(too_wide(alloc)),
    }
}

/// The rows with further ones behind the first of them.
fn inserted(
    alloc: Global,
    rows: &[Row],
    first: usize,
    more: &[Row],
) -> Result<Listed<Row>, AllocError> {
    let first = first.min(rows.len());
    let mut made = Listed::new(alloc);
    add_copies(alloc, &rows[..first], &mut made)?;
    add_copies(alloc, more, &mut made)?;
    add_copies(alloc, &rows[first..], &mut made)?;
    Ok(made)
}

/// The system of rows over forms and of others, which stand between them and the rows that define floors.
pub(crate) fn system_with(
    alloc: Global,
    rows: &[Difference],
    others: &[Row],
    width: u32,
) -> Result<System, Fault>
    requires { width ≤ 128 }
    ensures { IfOk result IsSystem }
{
    let system = rows_over(alloc, rows, width)?;
    let all = inserted(alloc, system.rows.as_slice(), rows.len(), others)?;
    Ok(kept_system(System {
        width: system.width,
        rows: all,
    }))
}

/// The row, if it is over variables below the width.
fn asked_row(alloc: Global, width: u32, row: Row) -> Result<Row, Fault>
    requires { width ≤ 128 }
    ensures { IfOk result (IsRow width) }
{
    let system = kept_system(System {
        width,
        rows: Listed::of_one(alloc, row)?,
    });
    match system.rows.into_vec().pop() {
        Some(row) => Ok(row),
        None => Err(too_wide(alloc)),
    }
}

/// Whether the system implies the row.
fn is_implied(alloc: Global, system: &System, row: Row) -> Result<bool, Fault>
    requires { IsSystem system.now }
{
    let row = asked_row(alloc, system.width, row)?;
    match implied(alloc, system, &row) {
        Ok(implied) => Ok(implied),
        Err(fault) => Err(set_fault(alloc, fault)),
    }
}

/// Whether the rows imply a row, all over the places of some variables.
pub(crate) fn implied_by(
    alloc: Global,
    others: &[Row],
    row: &Row,
    width: u32,
) -> Result<bool, Fault>
    requires { width ≤ 128 }
{
    let system = system_with(alloc, &[], others, width)?;
    is_implied(alloc, &system, row.copy(alloc)?)
}

/// Whether context and the rows imply a row, all over the places of these variables.
pub(crate) fn implied_with_context(
    alloc: Global,
    kernel: &Kernel,
    vars: &[u32],
    others: &[Row],
    row: &Row,
) -> Result<bool, Fault> {
    let width = width_of(alloc, vars)?;
    let mut context = Vec::new(alloc);
    add_context(alloc, kernel, vars, &mut context)?;
    let system = system_with(alloc, &context, others, width)?;
    is_implied(alloc, &system, row.copy(alloc)?)
}

/// Takes out the row at a place.
fn taken(alloc: Global, rows: &mut Vec<Row>, at: usize) -> Result<Row, Fault> {
    if at >= rows.len() {
        return Err(too_wide(alloc));
    }
    Ok(rows.remove(at))
}

fn push_difference(rows: &mut Vec<Difference>, row: Difference) -> Result<(), AllocError> {
    rows.push(row)?;
    Ok(())
}

/// Whether context and the rows imply a row over forms, all over the places of these variables. The rows that define its
/// floors belong to the system.
pub(crate) fn form_implied_with_context(
    alloc: Global,
    kernel: &Kernel,
    vars: &[u32],
    others: &[Row],
    row: Difference,
) -> Result<bool, Fault> {
    let width = width_of(alloc, vars)?;
    let mut context = Vec::new(alloc);
    add_context(alloc, kernel, vars, &mut context)?;
    let last = context.len();
    push_difference(&mut context, row)?;
    let System { width, rows } = rows_over(alloc, &context, width)?;
    let mut rows = rows.into_vec();
    let asked = taken(alloc, &mut rows, last)?;
    let all = inserted(alloc, &rows, last, others)?;
    let system = kept_system(System { width, rows: all });
    is_implied(alloc, &system, asked)
}
