//! The rows that guard an instruction.
ghost use Rattle.std.specs.Prelude.{◌≤◌, length};

use crate::placed::placed_rows;
use crate::queries::{form_implied_with_context, width_of};
use crate::there::{There, scope, scope_of_insn};
use affine_rows::{Form, Listed, Row};
use kernel_ir::{Fault, Insn, Kernel, QuasiRow, copy_row};
use quasi_forms::{Difference, mentions_only, renumber};
use std::alloc::{AllocError, Global};

/// Adds the rows that mention only these variables.
fn add_rows_over(
    alloc: Global,
    rows: &[QuasiRow],
    vars: &[u32],
    made: &mut Listed<QuasiRow>,
) -> Result<(), AllocError> {
    for row in rows {
        if mentions_only(vars, row.form.quasi()) {
            made.push(copy_row(alloc, row)?)?;
        }
    }
    Ok(())
}

/// The rows of an instruction: those of the domain over its inames and the parameters, then its own.
fn rows_of(alloc: Global, kernel: &Kernel, insn: &Insn) -> Result<Listed<QuasiRow>, AllocError> {
    let mut vars = Vec::from_slice(alloc, kernel.params.as_slice())?;
    vars.extend_from_slice(insn.inames.as_slice())?;
    let mut made = Listed::new(alloc);
    add_rows_over(alloc, kernel.rows.as_slice(), &vars, &mut made)?;
    for row in insn.rows.as_slice() {
        made.push(copy_row(alloc, row)?)?;
    }
    Ok(made)
}

/// The row over the places of its variables.
fn asked(alloc: Global, vars: &[u32], row: &QuasiRow) -> Result<Difference, AllocError>
    requires { length vars.now ≤ 128 }
{
    Ok(Difference {
        form: renumber(alloc, &row.form, vars)?,
        less: Form::affine(alloc, 0, Listed::new(alloc)),
        equal: row.equal,
    })
}

/// The rows of the instruction that context and what is known at a place do not imply.
pub fn guard_rows(
    alloc: Global,
    kernel: &Kernel,
    there: &There,
    insn: &Insn,
) -> Result<Listed<QuasiRow>, Fault> {
    let vars = scope(alloc, kernel, there)?;
    let own = scope_of_insn(alloc, kernel, there, insn)?;
    let _width = width_of(alloc, own.as_slice())?;
    let known: Listed<Row> = placed_rows(alloc, vars.as_slice(), there.known.as_slice())?;
    let mut made = Listed::new(alloc);
    for row in rows_of(alloc, kernel, insn)?.as_slice() {
        let asked = asked(alloc, own.as_slice(), row)?;
        if !form_implied_with_context(alloc, kernel, own.as_slice(), known.as_slice(), asked)? {
            made.push(copy_row(alloc, row)?)?;
        }
    }
    Ok(made)
}
