//! What the arguments that meet a kernel make of its parameters, as rows.
ghost use Rattle.std.specs.Prelude.{◌≡◌, ◌≤◌, ◌^◌, ◌++◌, ◌∷◌, [], map, flat_map, length, unsigned_abs, IfOk, OnOk};
ghost use Rattle.affine_rows.specs.Forms.{affine};
ghost use Rattle.kernel_limits.specs.SizeForms.{small_size_form};
ghost use Rattle.quasi_forms.specs.Renumbered.{renumbered_form};
ghost use Rattle.kernel_rules.specs.Rows.{array_rows, at_least_zero, context_rows, range_rows, size_row};

use crate::rows::{add_rows, at_least_zero};
use affine_rows::{Form, Listed};
use kernel_ir::{Array, Kernel};
use kernel_limits::size_form;
use quasi_forms::{Difference, place_in, renumber};
use std::alloc::{AllocError, Global};

/// A parameter is at least this, and at most one less than this negated.
const LEAST: i64 = -2_147_483_648;

/// The constant plus a multiple of a variable is at least 0.
fn bound_row(alloc: Global, constant: i64, var: u32, by: i64) -> Result<Difference, AllocError>
    requires constant { unsigned_abs constant ≤ 2 ^ 62 }
    requires by { unsigned_abs by ≤ 1 }
    ensures { IfOk result (λ row. row ≡ at_least_zero (affine constant ((var, by) ∷ []))) }
{
    let form = Form::affine(alloc, constant, Listed::of_one(alloc, (var, by))?);
    Ok(at_least_zero(alloc, form))
}

/// Adds the two rows of a parameter's range.
#[tactic(auto, unfolding(crate::specs::Rows::range_rows))]
fn add_range_rows(
    alloc: Global,
    vars: &[u32],
    param: u32,
    made: &mut Vec<Difference>,
) -> Result<(), AllocError>
    requires { length vars.now ≤ 128 }
    ensures { OnOk result (made.new.items ≡ made.old.items ++ range_rows vars.now param) }
{
    let place = place_in(vars, param);
    made.push(bound_row(alloc, -LEAST, place, 1)?)?;
    made.push(bound_row(alloc, -LEAST - 1, place, -1)?)?;
    Ok(())
}

/// Adds the row that says that the product of the entries is at most 2^31-1, where at most one of them is no number. In a
/// valid kernel each form on the way to it is within its limits.
fn add_size_row(
    alloc: Global,
    vars: &[u32],
    shape: &[Form],
    made: &mut Vec<Difference>,
) -> Result<(), AllocError>
    requires { length vars.now ≤ 128 }
    ensures { OnOk result (made.new.items ≡ made.old.items ++ size_row vars.now (small_size_form shape.now)) }
{
    match size_form(alloc, shape)? {
        None => Ok(()),
        Some(row) => {
            made.push(at_least_zero(alloc, renumber(alloc, &row, vars)?))?;
            Ok(())
        }
    }
}

/// Adds the rows that say that the entries are at least 0.
fn add_entry_rows(
    alloc: Global,
    vars: &[u32],
    shape: &[Form],
    made: &mut Vec<Difference>,
) -> Result<(), AllocError>
    requires { length vars.now ≤ 128 }
    ensures { OnOk result (made.new.items ≡ made.old.items ++ map (λ q. at_least_zero (renumbered_form vars.now q)) shape.now) }
{
    for entry in shape {
        made.push(at_least_zero(alloc, renumber(alloc, entry, vars)?))?;
    }
    Ok(())
}

/// Adds the rows of an array: its entries are at least 0, and their product is small.
fn add_array_rows(
    alloc: Global,
    vars: &[u32],
    array: &Array,
    made: &mut Vec<Difference>,
) -> Result<(), AllocError>
    requires { length vars.now ≤ 128 }
    ensures { OnOk result (made.new.items ≡ made.old.items ++ array_rows vars.now array.now) }
{
    add_entry_rows(alloc, vars, array.shape.as_slice(), made)?;
    add_size_row(alloc, vars, array.shape.as_slice(), made)
}

/// Adds the ranges of parameters.
fn add_ranges(
    alloc: Global,
    vars: &[u32],
    params: &[u32],
    made: &mut Vec<Difference>,
) -> Result<(), AllocError>
    requires { length vars.now ≤ 128 }
    ensures { OnOk result (made.new.items ≡ made.old.items ++ flat_map (range_rows vars.now) params.now) }
{
    for param in params {
        add_range_rows(alloc, vars, *param, made)?;
    }
    Ok(())
}

/// Adds the rows of arrays.
fn add_arrays(
    alloc: Global,
    vars: &[u32],
    arrays: &[Array],
    made: &mut Vec<Difference>,
) -> Result<(), AllocError>
    requires { length vars.now ≤ 128 }
    ensures { OnOk result (made.new.items ≡ made.old.items ++ flat_map (array_rows vars.now) arrays.now) }
{
    for array in arrays {
        add_array_rows(alloc, vars, array, made)?;
    }
    Ok(())
}

/// Adds the context: the range of each parameter, the assumptions, and the shapes of arrays.
pub fn add_context(
    alloc: Global,
    kernel: &Kernel,
    vars: &[u32],
    made: &mut Vec<Difference>,
) -> Result<(), AllocError>
    requires { length vars.now ≤ 128 }
    ensures { OnOk result (made.new.items ≡ made.old.items ++ context_rows kernel.now vars.now) }
{
    add_ranges(alloc, vars, kernel.params.as_slice(), made)?;
    add_rows(alloc, kernel.assumptions.as_slice(), vars, made)?;
    add_arrays(alloc, vars, kernel.arrays.as_slice(), made)
}
