//! An equality cancels a variable in other rows.
ghost use Rattle.std.specs.Prelude.{◌≡◌, ◌++◌, ◌∷◌, [], ◌≤◌, ◌^◌, All, OnOk, IfErr, length, neg_ℤ, pos, map, true, int_lt, if◌then◌else◌, unsigned_abs};
ghost use Rattle.std.specs.List.{list_all};
ghost use Rattle.affine_rows.specs.Reduced.{IsSomeRow, factor_of, fits_row, reduced_row};
ghost use Rattle.elimination.specs.Refusals.{IsRowFault};
ghost use Rattle.elimination.specs.Stages.{substituted};

use crate::fault::{SetFault, fault_of};
use crate::rows::factor_in;
use affine_rows::{Row, reduced_sum};
use std::alloc::Global;

fn negated(number: i64) -> i64
    requires { unsigned_abs number ≤ 2 ^ 62 }
    ensures { result ≡ neg_ℤ number }
{
    -number
}

fn size(number: i64) -> i64
    requires { unsigned_abs number ≤ 2 ^ 62 }
    ensures value { result ≡ pos (unsigned_abs number) }
    ensures small { unsigned_abs result ≤ 2 ^ 62 }
{
    if number < 0 { negated(number) } else { number }
}

/// What the equality is multiplied by, for its own factor and that of the other row.
fn times(own: i64, other: i64) -> i64
    requires { unsigned_abs other ≤ 2 ^ 62 }
    ensures value { result ≡ (if int_lt (pos 0) own then neg_ℤ other else other) }
    ensures small { unsigned_abs result ≤ 2 ^ 62 }
{
    if own > 0 { negated(other) } else { other }
}

fn add_sum(
    alloc: Global,
    equality: &Row,
    row: &Row,
    var: u32,
    number: u32,
    made: &mut Vec<Row>,
) -> Result<(), SetFault>
    requires equality { IsSomeRow equality.now }
    requires row { IsSomeRow row.now }
    ensures row { OnOk result (made.new.items ≡ made.old.items ++ reduced_row (substituted var equality.now row.now) ∷ []) }
    ensures fits { OnOk result (fits_row (reduced_row (substituted var equality.now row.now)) ≡ true) }
    ensures fault { IfErr result (IsRowFault number (length made.old.items) (reduced_row (substituted var equality.now row.now) ∷ [])) }
{
    let own = factor_in(equality, var);
    let other = factor_in(row, var);
    match reduced_sum(alloc, row, size(own), equality, times(own, other)) {
        Ok(row) => {
            made.push(row)?;
            Ok(())
        }
        Err(fault) => Err(fault_of(fault, number, made.len())),
    }
}

/// Adds the rows in which the equality cancels the variable.
pub(crate) fn add_substituted(
    alloc: Global,
    equality: &Row,
    rows: &[Row],
    var: u32,
    number: u32,
    made: &mut Vec<Row>,
) -> Result<(), SetFault>
    requires equality { IsSomeRow equality.now }
    requires rows { All IsSomeRow rows.now }
    ensures rows { OnOk result (made.new.items ≡ made.old.items ++ map (λ r. reduced_row (substituted var equality.now r)) rows.now) }
    ensures fits { OnOk result (list_all fits_row (map (λ r. reduced_row (substituted var equality.now r)) rows.now) ≡ true) }
    ensures fault { IfErr result (IsRowFault number (length made.old.items) (map (λ r. reduced_row (substituted var equality.now r)) rows.now)) }
{
    for row in rows {
        add_sum(alloc, equality, row, var, number, made)?;
    }
    Ok(())
}
