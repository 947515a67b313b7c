//! The rows that bound an iname of an instruction.
ghost use Rattle.std.specs.Prelude.{◌≤◌, ◌^◌, unsigned_abs};

use crate::axes::scope_var;
use crate::placed::number_to;
use crate::queries::{system_with, width_of};
use affine_rows::{Form, Listed, Row, Terms};
use kernel_ir::{Fault, Insn, Kernel};
use kernel_rules::{add_insn_rows, insn_vars, set_fault};
use quasi_forms::{Difference, place_in};
use set_query::bounds;
use std::alloc::{AllocError, Global};

/// The least number of an iname.
const LEAST: i64 = -2_147_483_648;

/// The greatest number of an iname.
const GREATEST: i64 = 2_147_483_647;

/// Rows that bound an iname of an instruction from below and from above.
#[derive(Drop)]
pub(crate) struct BothSides {
    pub(crate) lower: Listed<Row>,
    pub(crate) upper: Listed<Row>,
}

/// The constant and the multiple of a variable are at least 0.
fn range_row(alloc: Global, constant: i64, var: u32, by: i64) -> Result<Difference, AllocError>
    requires constant { unsigned_abs constant ≤ 2 ^ 62 }
    requires by { unsigned_abs by ≤ 2 ^ 62 }
{
    Ok(Difference {
        form: Form::affine(alloc, constant, Listed::of_one(alloc, (var, by))?),
        less: Form::affine(alloc, 0, Listed::new(alloc)),
        equal: false,
    })
}

/// Adds the two rows of an iname's range.
fn add_range(alloc: Global, var: u32, rows: &mut Vec<Difference>) -> Result<(), AllocError> {
    rows.push(range_row(alloc, -LEAST, var, 1)?)?;
    rows.push(range_row(alloc, GREATEST, var, -1)?)?;
    Ok(())
}

/// The places of the parameters and of those variables that are kept.
fn kept_places(
    alloc: Global,
    vars: &[u32],
    params: &[u32],
    kept: &[u32],
) -> Result<Vec<u32>, AllocError> {
    let mut places = Vec::new(alloc);
    for at in 0..vars.len() {
        if params.contains(&vars[at]) || kept.contains(&vars[at]) {
            places.push(number_to(at))?;
        }
    }
    Ok(places)
}

fn add_named(
    kernel: &Kernel,
    vars: &[u32],
    term: (u32, i64),
    made: &mut Terms,
) -> Result<(), AllocError> {
    if let Some(var) = vars.get(term.0 as usize) {
        made.push((scope_var(kernel, *var), term.1))?;
    }
    Ok(())
}

/// A row over places as one over the variables there, an axis in the place of an iname on it.
fn named_row(alloc: Global, kernel: &Kernel, vars: &[u32], row: &Row) -> Result<Row, AllocError> {
    let mut terms = Terms::new(alloc);
    for term in row.terms.as_slice() {
        add_named(kernel, vars, *term, &mut terms)?;
    }
    Ok(Row {
        constant: row.constant,
        terms,
        equal: row.equal,
    })
}

fn named_rows(
    alloc: Global,
    kernel: &Kernel,
    vars: &[u32],
    rows: &[Row],
) -> Result<Listed<Row>, AllocError> {
    let mut made = Listed::new(alloc);
    for row in rows {
        made.push(named_row(alloc, kernel, vars, row)?)?;
    }
    Ok(made)
}

/// The tight rows that bound an iname of the instruction where all else is cancelled but the parameters and the inames kept.
/// The iname's range stands behind the instruction's rows.
pub(crate) fn bound_rows(
    alloc: Global,
    kernel: &Kernel,
    insn: &Insn,
    var: u32,
    kept: &[u32],
) -> Result<BothSides, Fault> {
    let vars = insn_vars(alloc, kernel, insn, &[])?;
    let width = width_of(alloc, &vars)?;
    let place = place_in(&vars, var);
    let mut rows = Vec::new(alloc);
    add_insn_rows(alloc, kernel, insn, &vars, &mut rows)?;
    add_range(alloc, place, &mut rows)?;
    let system = system_with(alloc, &rows, &[], width)?;
    let keep = kept_places(alloc, &vars, kernel.params.as_slice(), kept)?;
    match bounds(alloc, &system, &keep, place) {
        Ok(made) => Ok(BothSides {
            lower: named_rows(alloc, kernel, &vars, made.lower.as_slice())?,
            upper: named_rows(alloc, kernel, &vars, made.upper.as_slice())?,
        }),
        Err(fault) => Err(set_fault(alloc, fault)),
    }
}
