//! The rows without a variable, and the combinations in which it cancels.
ghost use Rattle.std.specs.Prelude.{◌≡◌, ◌++◌, ◌∷◌, [], ◌<ℤ◌, All, OnOk, IfErr, length, pos, map, filter, flat_map, true};
ghost use Rattle.std.specs.List.{list_all};
ghost use Rattle.affine_rows.specs.Reduced.{IsSomeRow, combination, factor_of, fits_row, reduced_row};
ghost use Rattle.elimination.specs.Refusals.{IsRowFault};
ghost use Rattle.elimination.specs.Stages.{bounds_below, is_without, pairs_of};

use crate::fault::{SetFault, fault_of};
use crate::rows::factor_in;
use affine_rows::{Row, combine, reduce};
use std::alloc::Global;

pub(crate) fn add_reduced(alloc: Global, row: &Row, made: &mut Vec<Row>) -> Result<(), SetFault>
    ensures row { OnOk result (made.new.items ≡ made.old.items ++ reduced_row row.now ∷ []) }
    ensures fault { IfErr result (λ fault. fault ≡ SetFault.OutOfMemory) }
{
    let mut kept = row.copy(alloc)?;
    reduce(&mut kept);
    made.push(kept)?;
    Ok(())
}

/// Adds the rows without the variable, reduced.
pub(crate) fn add_kept(
    alloc: Global,
    rows: &[Row],
    var: u32,
    made: &mut Vec<Row>,
) -> Result<(), SetFault>
    requires { All IsSomeRow rows.now }
    ensures rows { OnOk result (made.new.items ≡ made.old.items ++ map reduced_row (filter (is_without var) rows.now)) }
    ensures fault { IfErr result (λ fault. fault ≡ SetFault.OutOfMemory) }
{
    for row in rows {
        if factor_in(row, var) == 0 {
            add_reduced(alloc, row, made)?;
        }
    }
    Ok(())
}

fn add_pair(
    alloc: Global,
    lower: &Row,
    upper: &Row,
    var: u32,
    number: u32,
    made: &mut Vec<Row>,
) -> Result<(), SetFault>
    requires lower_row { IsSomeRow lower.now }
    requires upper_row { IsSomeRow upper.now }
    requires below { pos 0 <ℤ factor_of var lower.now.terms }
    requires above { factor_of var upper.now.terms <ℤ pos 0 }
    ensures row { OnOk result (made.new.items ≡ made.old.items ++ reduced_row (combination var lower.now upper.now) ∷ []) }
    ensures fits { OnOk result (fits_row (reduced_row (combination var lower.now upper.now)) ≡ true) }
    ensures fault { IfErr result (IsRowFault number (length made.old.items) (reduced_row (combination var lower.now upper.now) ∷ [])) }
{
    match combine(alloc, lower, upper, var) {
        Ok(row) => {
            made.push(row)?;
            Ok(())
        }
        Err(fault) => Err(fault_of(fault, number, made.len())),
    }
}

/// Adds the combinations of a lower row with each upper row.
fn add_pairs(
    alloc: Global,
    lower: &Row,
    rows: &[Row],
    var: u32,
    number: u32,
    made: &mut Vec<Row>,
) -> Result<(), SetFault>
    requires lower_row { IsSomeRow lower.now }
    requires rows { All IsSomeRow rows.now }
    requires below { pos 0 <ℤ factor_of var lower.now.terms }
    ensures rows { OnOk result (made.new.items ≡ made.old.items ++ pairs_of var rows.now lower.now) }
    ensures fits { OnOk result (list_all fits_row (pairs_of var rows.now lower.now) ≡ true) }
    ensures fault { IfErr result (IsRowFault number (length made.old.items) (pairs_of var rows.now lower.now)) }
{
    for upper in rows {
        if factor_in(upper, var) < 0 {
            add_pair(alloc, lower, upper, var, number, made)?;
        }
    }
    Ok(())
}

/// Adds the combinations of each lower row with each upper row.
pub(crate) fn add_all_pairs(
    alloc: Global,
    rows: &[Row],
    var: u32,
    number: u32,
    made: &mut Vec<Row>,
) -> Result<(), SetFault>
    requires { All IsSomeRow rows.now }
    ensures rows { OnOk result (made.new.items ≡ made.old.items ++ flat_map (pairs_of var rows.now) (filter (bounds_below var) rows.now)) }
    ensures fits { OnOk result (list_all fits_row (flat_map (pairs_of var rows.now) (filter (bounds_below var) rows.now)) ≡ true) }
    ensures fault { IfErr result (IsRowFault number (length made.old.items) (flat_map (pairs_of var rows.now) (filter (bounds_below var) rows.now))) }
{
    for lower in rows {
        if factor_in(lower, var) > 0 {
            add_pairs(alloc, lower, rows, var, number, made)?;
        }
    }
    Ok(())
}
