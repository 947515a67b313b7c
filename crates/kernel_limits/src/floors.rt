//! The different floors of an instruction.
ghost use Rattle.std.specs.Prelude.{◌≡◌, ◌++◌, nat_le, map, flat_map, filter, length, All, IfOk, OnOk};
ghost use Rattle.affine_rows.specs.Forms.{IsForm};
ghost use Rattle.expr_tree.specs.Scenes.{mentions_only};
ghost use Rattle.kernel_ir.specs.Mentions.{forms, listed, listed_in};
ghost use Rattle.kernel_ir.specs.Limits.{all_inames, floors_of_insn, forms_of, test_of, value_of};

use crate::mentions::add_forms;
use affine_rows::{Form, Listed};
use kernel_ir::{Array, Insn, Kernel, QuasiRow};
use quasi_forms::mentions_only;
use std::alloc::{AllocError, Global};

/// Adds the forms of rows.
fn add_rows(alloc: Global, rows: &[QuasiRow], made: &mut Listed<Form>) -> Result<(), AllocError>
    ensures { OnOk result (made.new ≡ made.old ++ map (λ r. r.form) rows.now) }
{
    for row in rows {
        made.push(row.form.copy(alloc)?)?;
    }
    Ok(())
}

/// Adds the forms of those rows that mention only these variables.
fn add_rows_over(
    alloc: Global,
    vars: &[u32],
    rows: &[QuasiRow],
    made: &mut Listed<Form>,
) -> Result<(), AllocError>
    ensures { OnOk result (made.new ≡ made.old ++ map (λ r. r.form) (filter (λ r. mentions_only vars.now r.form) rows.now)) }
{
    for row in rows {
        if mentions_only(vars, row.form.quasi()) {
            made.push(row.form.copy(alloc)?)?;
        }
    }
    Ok(())
}

/// Adds the shape entries of arrays.
fn add_shapes(alloc: Global, arrays: &[Array], made: &mut Listed<Form>) -> Result<(), AllocError>
    ensures { OnOk result (made.new ≡ made.old ++ flat_map (λ a. a.shape) arrays.now) }
{
    for array in arrays {
        add_forms(alloc, array.shape.as_slice(), made)?;
    }
    Ok(())
}

/// The forms of an instruction with these forms and variables, those of its domain rows, of the assumptions and of the
/// shapes among them.
fn forms_with(
    alloc: Global,
    kernel: &Kernel,
    insn: &Insn,
    vars: &[u32],
    found: &[Form],
) -> Result<Listed<Form>, AllocError>
    requires vars { vars.now ≡ kernel.now.params ++ all_inames insn.now }
    requires forms { found.now ≡ insn.now.place ++ (listed_in forms (test_of kernel.now insn.now) ++ listed forms (value_of kernel.now insn.now)) }
    ensures { IfOk result (λ made. made ≡ forms_of kernel.now insn.now) }
{
    let mut made = Listed::new(alloc);
    add_rows_over(alloc, vars, kernel.rows.as_slice(), &mut made)?;
    add_rows(alloc, insn.rows.as_slice(), &mut made)?;
    add_rows(alloc, kernel.assumptions.as_slice(), &mut made)?;
    add_shapes(alloc, kernel.arrays.as_slice(), &mut made)?;
    add_forms(alloc, found, &mut made)?;
    Ok(made)
}

/// The variables of parameters and inames.
fn vars_of(alloc: Global, params: &[u32], inames: &[u32]) -> Result<Vec<u32>, AllocError>
    ensures { IfOk result (λ vars. vars.items ≡ params.now ++ inames.now) }
{
    let mut vars = Vec::from_slice(alloc, params)?;
    vars.extend_from_slice(inames)?;
    Ok(vars)
}

/// Whether an instruction with these forms and inames has at most 32 different floors. Each form is within its limits.
pub(crate) fn few_floors(
    alloc: Global,
    kernel: &Kernel,
    insn: &Insn,
    inames: &[u32],
    found: &[Form],
) -> Result<bool, AllocError>
    requires inames { inames.now ≡ all_inames insn.now }
    requires forms { found.now ≡ insn.now.place ++ (listed_in forms (test_of kernel.now insn.now) ++ listed forms (value_of kernel.now insn.now)) }
    ensures few { IfOk result (λ few. few ≡ nat_le (length (floors_of_insn kernel.now insn.now)) 32) }
    ensures forms { OnOk result (All IsForm (forms_of kernel.now insn.now)) }
{
    let vars = vars_of(alloc, kernel.params.as_slice(), inames)?;
    let forms = forms_with(alloc, kernel, insn, &vars, found)?;
    quasi_forms::few_floors(alloc, forms.as_slice())
}
