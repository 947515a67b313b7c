//! Rows of a code as rows of a system.
ghost use Rattle.std.specs.Prelude.{◌≤◌, ◌^◌, IfOk, length, unsigned_abs};
ghost use Rattle.elimination.specs.Stages.{IsSystem};

use affine_rows::{Form, Listed, System};
use elimination::SetFault;
use kernel_rules::{MOST_VARIABLES, kept_system};
use quasi_forms::{Difference, FormFault, mentions_only, renumber, system_over};
use std::alloc::{AllocError, Global};

/// A multiple of a variable and a number.
pub(crate) fn multiple(
    alloc: Global,
    times: i64,
    var: u32,
    constant: u64,
) -> Result<Form, AllocError>
    requires times { unsigned_abs times ≤ 2 ^ 62 }
    requires constant { constant ≤ 2 ^ 62 }
{
    Ok(Form::affine(alloc, constant as i64, Listed::of_one(alloc, (var, times))?))
}

/// A variable.
pub(crate) fn variable(alloc: Global, var: u32) -> Result<Form, AllocError> {
    multiple(alloc, 1, var, 0)
}

/// An equal row.
pub(crate) fn copied(alloc: Global, row: &Difference) -> Result<Difference, AllocError> {
    Ok(Difference {
        form: row.form.copy(alloc)?,
        less: row.less.copy(alloc)?,
        equal: row.equal,
    })
}

/// Adds copies of the rows.
pub(crate) fn add_copies(
    alloc: Global,
    rows: &[Difference],
    made: &mut Listed<Difference>,
) -> Result<(), AllocError> {
    for row in rows {
        made.push(copied(alloc, row)?)?;
    }
    Ok(())
}

/// The row that says that the form less the other is at least 0, or equals 0, each over the variables of its own by their
/// places. A row that mentions other variables says nothing in the system.
pub(crate) fn add_difference(
    alloc: Global,
    form: &Form,
    vars: &[u32],
    less: &Form,
    less_vars: &[u32],
    equal: bool,
    made: &mut Vec<Difference>,
) -> Result<(), AllocError>
    requires vars { length vars.now ≤ 128 }
    requires less_vars { length less_vars.now ≤ 128 }
{
    if mentions_only(vars, form.quasi()) && mentions_only(less_vars, less.quasi()) {
        made.push(Difference {
            form: renumber(alloc, form, vars)?,
            less: renumber(alloc, less, less_vars)?,
            equal,
        })?;
    }
    Ok(())
}

/// Adds the rows over the variables.
pub(crate) fn add_rows(
    alloc: Global,
    rows: &[Difference],
    vars: &[u32],
    made: &mut Vec<Difference>,
) -> Result<(), AllocError>
    requires { length vars.now ≤ 128 }
{
    for row in rows {
        add_difference(alloc, &row.form, vars, &row.less, vars, row.equal, made)?;
    }
    Ok(())
}

/// The refusal of a system that passes a limit before its first stage.
pub(crate) fn too_wide() -> SetFault {
    SetFault::TooWide { stage: 0, row: 0 }
}

/// The system, if it has at most 128 variables.
fn kept(system: System) -> Result<System, SetFault>
    ensures { IfOk result IsSystem }
{
    if system.width as usize > MOST_VARIABLES {
        return Err(too_wide());
    }
    Ok(kept_system(system))
}

/// The system of rows over so many variables.
pub(crate) fn system_of(
    alloc: Global,
    rows: &[Difference],
    width: usize,
) -> Result<System, SetFault>
    ensures { IfOk result IsSystem }
{
    if width > MOST_VARIABLES {
        return Err(too_wide());
    }
    match system_over(alloc, rows, width as u32) {
        Ok(system) => kept(system),
        Err(FormFault::OutOfMemory) => Err(SetFault::OutOfMemory),
        Err(FormFault::Limit | FormFault::NotAffine) => Err(too_wide()),
    }
}
