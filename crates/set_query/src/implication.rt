//! Whether a system implies a row.
ghost use Rattle.std.specs.Prelude.{◌≡◌, ◌↔◌, ◌≤◌, ◌^◌, IfOk, IfErr, OnOk, IsTrue, true, unsigned_abs};
ghost use Rattle.affine_rows.specs.Reduced.{IsSomeRow, fits_row, reduced_row};
ghost use Rattle.affine_rows.specs.Rows.{IsRow};
ghost use Rattle.elimination.specs.Stages.{IsSystem};
ghost use Rattle.set_query.specs.Implications.{HoldsThere, Implies, IsHalfFault, IsHalfWithin, IsImplied, IsImpliedFault, IsImpliedWithin, IsWideDenial, denied, never, wide_denial};

use crate::splitting::with_row;
use affine_rows::{Row, RowFault, System, Terms, reduced_sum};
use elimination::{Found, SetFault, find_point};
use std::alloc::Global;

/// -1 >= 0.
fn never(alloc: Global) -> Row
    ensures { result ≡ never }
{
    Row {
        constant: -1,
        terms: Terms::new(alloc),
        equal: false,
    }
}

/// A row that is too wide before any stage.
fn wide_denial(fault: RowFault) -> SetFault
    ensures { result ≡ wide_denial fault }
{
    match fault {
        RowFault::OutOfMemory => SetFault::OutOfMemory,
        RowFault::Wide => SetFault::TooWide { stage: 0, row: 0 },
    }
}

/// The row multiplied by a number, minus one, is at least 0.
fn denied(alloc: Global, row: &Row, times: i64) -> Result<Row, SetFault>
    requires row { IsSomeRow row.now }
    requires times { unsigned_abs times ≤ 2 ^ 62 }
    ensures value { IfOk result (λ made. made ≡ reduced_row (denied times row.now)) }
    ensures fits { OnOk result (fits_row (reduced_row (denied times row.now)) ≡ true) }
    ensures fault { IfErr result (IsWideDenial times row.now) }
{
    match reduced_sum(alloc, row, times, &never(alloc), 1) {
        Ok(made) => Ok(made),
        Err(fault) => Err(wide_denial(fault)),
    }
}

fn is_empty(found: &Found) -> bool
    ensures { IsTrue result ↔ (found.now ≡ Found.Empty) }
{
    matches!(found, Found::Empty)
}

/// Whether the row multiplied by a number can't be more than 0.
fn half_implied(alloc: Global, system: &System, row: &Row, times: i64) -> Result<bool, SetFault>
    requires system { IsSystem system.now }
    requires row { IsRow system.now.width row.now }
    requires times { unsigned_abs times ≤ 2 ^ 62 }
    ensures implied { IfOk result (λ is. IsTrue is ↔ Implies system.now.rows times row.now) }
    ensures within { OnOk result (IsHalfWithin system.now times row.now) }
    ensures fault { IfErr result (IsHalfFault system.now times row.now) }
{
    let denied = denied(alloc, row, times)?;
    let asked = with_row(alloc, system, denied)?;
    Ok(is_empty(&find_point(alloc, &asked)?))
}

/// Whether the system implies the row: an inequality where the system has no rational point at which the row, negated, is
/// at least 1; an equality where it implies both of its halves. Then the row holds at each integer point of the system.
///
/// The half in which the row is at least 0 is asked first, and the other one exactly where the first is implied. A half is
/// asked by `find_point`, with whose faults it is refused. Where the negated row, minus one and reduced, has an entry that
/// passes 2^62 in absolute value, the fault is `TooWide` in row 0 of stage 0.
pub fn implied(alloc: Global, system: &System, row: &Row) -> Result<bool, SetFault>
    requires system { IsSystem system.now }
    requires row { IsRow system.now.width row.now }
    ensures implied { IfOk result (λ is. IsTrue is ↔ IsImplied system.now.rows row.now) }
    ensures holds { IfOk result (λ is. IsTrue is → HoldsThere system.now.rows row.now) }
    ensures within { OnOk result (IsImpliedWithin system.now row.now) }
    ensures fault { IfErr result (IsImpliedFault system.now row.now) }
{
    if !half_implied(alloc, system, row, -1)? {
        return Ok(false);
    }
    if !row.equal {
        return Ok(true);
    }
    let second = half_implied(alloc, system, row, 1)?;
    Ok(second)
}
