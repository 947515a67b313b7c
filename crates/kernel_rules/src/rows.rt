//! The rows of a kernel over the variables of a system.
ghost use Rattle.std.specs.Prelude.{◌≡◌, ◌≤◌, ◌^◌, ◌++◌, ◌&&◌, ◌∷◌, [], unsigned_abs, map, flat_map, filter, not, length, IfOk, OnOk};
ghost use Rattle.expr_tree.specs.Scenes.{is_among, mentions_one, mentions_only, rows_over};
ghost use Rattle.kernel_ir.specs.NameSpace.{iname_vars};
ghost use Rattle.inst_model.specs.Instances.{rows_of};
ghost use Rattle.quasi_forms.specs.Collected.{constant_form};
ghost use Rattle.kernel_rules.specs.Rows.{asked, at_least_zero, fold_rows, insn_inames, insn_rows, insn_vars, zero_form};

use affine_rows::{Form, Listed};
use kernel_ir::{Iname, Insn, Kernel, QuasiRow};
use quasi_forms::{Difference, is_among, mentions_one, mentions_only, renumber};
use std::alloc::{AllocError, Global};

/// The variables of both lists.
pub(crate) fn both(alloc: Global, left: &[u32], right: &[u32]) -> Result<Vec<u32>, AllocError>
    ensures { IfOk result (λ all. all.items ≡ left.now ++ right.now) }
{
    let mut all = Vec::from_slice(alloc, left)?;
    all.extend_from_slice(right)?;
    Ok(all)
}

/// Those inames that are among these.
fn inames_among(alloc: Global, inames: &[Iname], among: &[u32]) -> Result<Vec<u32>, AllocError>
    ensures { IfOk result (λ made. made.items ≡ filter (is_among among.now) (map (λ i. i.var) inames.now)) }
{
    let mut made = Vec::new(alloc);
    for iname in inames {
        if is_among(among, iname.var) {
            made.push(iname.var)?;
        }
    }
    Ok(made)
}

/// The inames of the instruction and of these reductions in declared order.
pub(crate) fn insn_inames(
    alloc: Global,
    kernel: &Kernel,
    insn: &Insn,
    folds: &[u32],
) -> Result<Vec<u32>, AllocError>
    ensures { IfOk result (λ made. made.items ≡ insn_inames kernel.now insn.now folds.now) }
{
    let among = both(alloc, insn.inames.as_slice(), folds)?;
    inames_among(alloc, kernel.inames.as_slice(), &among)
}

/// The parameters, and the inames of the instruction and of these reductions in declared order.
pub fn insn_vars(
    alloc: Global,
    kernel: &Kernel,
    insn: &Insn,
    folds: &[u32],
) -> Result<Vec<u32>, AllocError>
    ensures { IfOk result (λ vars. vars.items ≡ insn_vars kernel.now insn.now folds.now) }
{
    let inames = insn_inames(alloc, kernel, insn, folds)?;
    both(alloc, kernel.params.as_slice(), &inames)
}

/// The number as a form.
pub fn number(alloc: Global, number: i64) -> Form
    requires { unsigned_abs number ≤ 2 ^ 62 }
    ensures { result ≡ constant_form number }
{
    Form::affine(alloc, number, Listed::new(alloc))
}

/// The form 0.
pub(crate) fn zero(alloc: Global) -> Form
    ensures { result ≡ zero_form }
{
    Form::affine(alloc, 0, Listed::new(alloc))
}

/// The form is at least 0.
pub fn at_least_zero(alloc: Global, form: Form) -> Difference
    ensures { result ≡ at_least_zero form }
{
    Difference {
        form,
        less: zero(alloc),
        equal: false,
    }
}

/// The row over the places of its variables.
fn asked(alloc: Global, vars: &[u32], row: &QuasiRow) -> Result<Difference, AllocError>
    requires { length vars.now ≤ 128 }
    ensures { IfOk result (λ made. made ≡ asked vars.now row.now) }
{
    Ok(Difference {
        form: renumber(alloc, &row.form, vars)?,
        less: zero(alloc),
        equal: row.equal,
    })
}

/// Adds rows over the places of their variables.
pub fn add_rows(
    alloc: Global,
    rows: &[QuasiRow],
    vars: &[u32],
    made: &mut Vec<Difference>,
) -> Result<(), AllocError>
    requires { length vars.now ≤ 128 }
    ensures { OnOk result (made.new.items ≡ made.old.items ++ map (asked vars.now) rows.now) }
{
    for row in rows {
        made.push(asked(alloc, vars, row)?)?;
    }
    Ok(())
}

/// Adds the rows over the scope.
fn add_rows_within(
    alloc: Global,
    rows: &[QuasiRow],
    scope: &[u32],
    vars: &[u32],
    made: &mut Vec<Difference>,
) -> Result<(), AllocError>
    requires { length vars.now ≤ 128 }
    ensures { OnOk result (made.new.items ≡ made.old.items ++ map (asked vars.now) (filter (λ r. mentions_only scope.now r.form) rows.now)) }
{
    for row in rows {
        if mentions_only(scope, row.form.quasi()) {
            made.push(asked(alloc, vars, row)?)?;
        }
    }
    Ok(())
}

/// Adds the rows of an instruction: those of the domain over its inames and the parameters, then its own.
pub fn add_insn_rows(
    alloc: Global,
    kernel: &Kernel,
    insn: &Insn,
    vars: &[u32],
    made: &mut Vec<Difference>,
) -> Result<(), AllocError>
    requires { length vars.now ≤ 128 }
    ensures { OnOk result (made.new.items ≡ made.old.items ++ insn_rows kernel.now insn.now vars.now) }
{
    let scope = both(alloc, kernel.params.as_slice(), insn.inames.as_slice())?;
    add_rows_within(alloc, kernel.rows.as_slice(), &scope, vars, made)?;
    add_rows(alloc, insn.rows.as_slice(), vars, made)
}

/// Whether the row mentions an iname of the reductions, and otherwise only what is in scope.
fn is_of_folds(scope: &[u32], folds: &[u32], row: &QuasiRow) -> bool
    ensures { result ≡ (mentions_one folds.now row.now.form && mentions_only scope.now row.now.form) }
{
    mentions_one(folds, row.form.quasi()) && mentions_only(scope, row.form.quasi())
}

/// Adds the rows that mention an iname of the reductions, and otherwise only what is in scope.
fn add_rows_of_folds(
    alloc: Global,
    rows: &[QuasiRow],
    scope: &[u32],
    folds: &[u32],
    vars: &[u32],
    made: &mut Vec<Difference>,
) -> Result<(), AllocError>
    requires { length vars.now ≤ 128 }
    ensures { OnOk result (made.new.items ≡ made.old.items ++ map (asked vars.now) (filter (λ r. mentions_one folds.now r.form && mentions_only scope.now r.form) rows.now)) }
{
    for row in rows {
        if is_of_folds(scope, folds, row) {
            made.push(asked(alloc, vars, row)?)?;
        }
    }
    Ok(())
}

/// Adds the domain rows of reductions over these inames.
pub fn add_fold_rows(
    alloc: Global,
    kernel: &Kernel,
    insn: &Insn,
    folds: &[u32],
    vars: &[u32],
    made: &mut Vec<Difference>,
) -> Result<(), AllocError>
    requires { length vars.now ≤ 128 }
    ensures { OnOk result (made.new.items ≡ made.old.items ++ fold_rows kernel.now insn.now folds.now vars.now) }
{
    let outer = both(alloc, kernel.params.as_slice(), insn.inames.as_slice())?;
    let scope = both(alloc, &outer, folds)?;
    add_rows_of_folds(alloc, kernel.rows.as_slice(), &scope, folds, vars, made)
}
