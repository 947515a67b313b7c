//! The rows of the shadows of using instructions that all shadows imply.
ghost use Rattle.std.specs.Prelude.{◌<◌, ◌≤◌, length, IfOk};

use crate::fill::{formed, small_number};
use crate::request::{Plan, Request};
use affine_rows::{Form, Listed, Row, tighten};
use elimination::shadow;
use implied_rows::implies;
use kernel_ir::{Fault, Insn, Kernel, QuasiRow, copy_row};
use kernel_rules::{Asked, MOST_VARIABLES, add_rows, built, form_fault, rows_of_insn, set_fault};
use quasi_forms::{FormFault, place_in, same_form, small_sum_of};
use std::alloc::{AllocError, Global};

/// A form with the multiple of the variable at a place, where there is one.
fn with_term(alloc: Global, form: Form, term: (u32, i64), vars: &[u32]) -> Result<Form, FormFault> {
    match vars.get(term.0 as usize) {
        None => Ok(form),
        Some(var) => {
            let own = Form::affine(alloc, 0, Listed::of_one(alloc, (*var, 1))?);
            small_sum_of(alloc, &form, term.1, &own)
        }
    }
}

/// A row over the places of variables as a form over these.
fn form_of(alloc: Global, row: &Row, vars: &[u32]) -> Result<Form, FormFault> {
    let mut form = small_number(alloc, row.constant)?;
    for term in row.terms.as_slice() {
        form = with_term(alloc, form, *term, vars)?;
    }
    Ok(form)
}

/// The row, tightened where it is an inequality with a variable.
fn tight(row: Row) -> Row {
    let mut row = row;
    if !row.equal && !row.terms.as_slice().is_empty() {
        tighten(&mut row);
    }
    row
}

fn tight_row(alloc: Global, row: Row, vars: &[u32]) -> Result<QuasiRow, FormFault> {
    let row = tight(row);
    Ok(QuasiRow {
        form: form_of(alloc, &row, vars)?,
        equal: row.equal,
    })
}

/// The rows over variables, tightened.
fn tight_rows(
    alloc: Global,
    rows: Listed<Row>,
    vars: &[u32],
) -> Result<Listed<QuasiRow>, FormFault> {
    let mut made = Listed::new(alloc);
    for row in rows.into_vec() {
        made.push(tight_row(alloc, row, vars)?)?;
    }
    Ok(made)
}

/// The places of variables among others.
fn places_of(alloc: Global, vars: &[u32], among: &[u32]) -> Result<Vec<u32>, AllocError>
    requires { length among.now ≤ 128 }
{
    let mut made = Vec::new(alloc);
    for var in vars {
        made.push(place_in(among, *var))?;
    }
    Ok(made)
}

/// The rows of the shadow of an instruction's rows on variables.
fn shadow_rows(
    alloc: Global,
    kernel: &Kernel,
    insn: &Insn,
    vars: &[u32],
) -> Result<Listed<QuasiRow>, Fault> {
    let asked = rows_of_insn(alloc, kernel, insn, &[], false)?;
    let system = built(alloc, &asked)?;
    let places = places_of(alloc, vars, &asked.vars)?;
    match shadow(alloc, &system, &places) {
        Ok(last) => formed(alloc, tight_rows(alloc, last.rows, &asked.vars)),
        Err(fault) => Err(set_fault(alloc, fault)),
    }
}

/// Variables, and then others.
fn both(alloc: Global, vars: &[u32], others: &[u32]) -> Result<Vec<u32>, AllocError> {
    let mut all = Vec::from_slice(alloc, vars)?;
    all.extend_from_slice(others)?;
    Ok(all)
}

/// The parameters and the inames that a fill keeps. Rule 18 refuses where these are more than 128.
fn fill_vars(alloc: Global, kernel: &Kernel, plan: &Plan) -> Result<Vec<u32>, Fault>
    ensures { IfOk result (λ vars. length vars.items ≤ 128) }
{
    let vars = both(alloc, kernel.params.as_slice(), plan.kept.as_slice())?;
    if vars.len() > MOST_VARIABLES {
        return Err(form_fault(alloc, FormFault::Limit));
    }
    Ok(vars)
}

/// The shadows of the using instructions.
fn shadows_of(
    alloc: Global,
    kernel: &Kernel,
    users: &[usize],
    vars: &[u32],
) -> Result<Listed<Listed<QuasiRow>>, Fault> {
    let mut made = Listed::new(alloc);
    for user in users {
        if let Some(insn) = kernel.insns.get(*user) {
            made.push(shadow_rows(alloc, kernel, insn, vars)?)?;
        }
    }
    Ok(made)
}

/// Whether the rows of a shadow imply the row.
fn shadow_implies(
    alloc: Global,
    vars: &[u32],
    shadow: &[QuasiRow],
    row: &QuasiRow,
) -> Result<bool, Fault>
    requires { length vars.now ≤ 128 }
{
    let mut rows = Vec::new(alloc);
    add_rows(alloc, shadow, vars, &mut rows)?;
    let vars = Vec::from_slice(alloc, vars)?;
    let mut asked = Asked { vars, rows };
    implies(alloc, &mut asked, row)
}

/// Whether all shadows but the one at a place imply the row.
fn others_imply(
    alloc: Global,
    vars: &[u32],
    shadows: &[Listed<QuasiRow>],
    at: usize,
    row: &QuasiRow,
) -> Result<bool, Fault>
    requires { length vars.now ≤ 128 }
{
    for other in 0..shadows.len() {
        if other != at && !shadow_implies(alloc, vars, shadows[other].as_slice(), row)? {
            return Ok(false);
        }
    }
    Ok(true)
}

/// Adds a row, unless an equal one is there.
pub(crate) fn add_once(row: QuasiRow, made: &mut Listed<QuasiRow>) -> Result<(), AllocError> {
    let is_known = made.as_slice().iter().any(|known| known.equal == row.equal
        && same_form(known.form.quasi(), row.form.quasi()));
    if is_known {
        return Ok(());
    }
    made.push(row)
}

/// Adds the rows of the shadow at a place that all other ones imply.
fn add_common(
    alloc: Global,
    vars: &[u32],
    shadows: &[Listed<QuasiRow>],
    at: usize,
    made: &mut Listed<QuasiRow>,
) -> Result<(), Fault>
    requires few { length vars.now ≤ 128 }
    requires there { at < length shadows.now }
{
    for row in shadows[at].as_slice() {
        if others_imply(alloc, vars, shadows, at, row)? {
            add_once(copy_row(alloc, row)?, made)?;
        }
    }
    Ok(())
}

/// The rows over parameters and kept inames of each using instruction's shadow that all other shadows imply, equal ones once.
pub(crate) fn common_rows(
    alloc: Global,
    request: Request<'_>,
    plan: &Plan,
) -> Result<Listed<QuasiRow>, Fault> {
    let vars = fill_vars(alloc, request.kernel, plan)?;
    let shadows = shadows_of(alloc, request.kernel, &plan.users, &vars)?;
    let shadows = shadows.as_slice();
    let mut made = Listed::new(alloc);
    for at in 0..shadows.len() {
        add_common(alloc, &vars, shadows, at, &mut made)?;
    }
    Ok(made)
}
