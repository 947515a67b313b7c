//! The bounds that rows set to one variable at a point.
ghost use Rattle.std.specs.Prelude.{◌≡◌, ◌↔◌, ◌+◌, ◌≤◌, ◌<◌, ◌^◌, ◌+ℤ◌, ◌*ℤ◌, ◌<ℤ◌, ℕ, ℤ, pos, neg_ℤ, true, ◌≢◌, IsTrue, All, length, unsigned_abs, int_lt, if◌then◌else◌};
ghost use Rattle.affine_rows.specs.Rows.{IsRow, env_of};
ghost use Rattle.affine_rows.specs.Reduced.{IsSomeRow, factor_of, value_over};
ghost use Rattle.elimination.specs.Shadows.{Each};
ghost use Rattle.elimination.specs.Points.{IsSmall, over_of};
ghost use Rattle.elimination.specs.Fractions.{IsAnyBound, IsAsTight, IsBound, Respects, RespectsAny, RespectsRow, bound_of, bounds_on};

use crate::fractions::{Fraction, is_at_most, negated};
use crate::rows::factor_in;
use affine_rows::{Point, Row, value_at};

/// The side of a number on which its bound lies.
#[derive(Clone, Copy)]
pub(crate) enum Side {
    Below,
    Above,
}

fn add_product(sum: i128, factor: i64, number: i64) -> i128
    requires sum { unsigned_abs sum ≤ 2 ^ 125 + 2 ^ 62 }
    requires factor { unsigned_abs factor ≤ 2 ^ 62 }
    requires number { unsigned_abs number ≤ 2 ^ 56 }
    ensures value { result ≡ sum +ℤ (factor *ℤ number) }
    ensures small { unsigned_abs result ≤ 2 ^ 126 }
{
    sum + i128::from(factor) * i128::from(number)
}

/// The row's value at the point, multiplied by the denominator.
pub(crate) fn value_over(row: &Row, point: &Point) -> i128
    requires row { IsRow (length point.now.at) row.now }
    requires few { length point.now.at ≤ 128 }
    requires positive { pos 0 <ℤ point.now.over }
    requires small { IsSmall point.now }
    ensures value { result ≡ value_over (over_of point.now) (env_of point.now.at) row.now }
    ensures small { unsigned_abs result ≤ 2 ^ 126 }
{
    let once = value_at(row, point.at.as_slice());
    add_product(once, row.constant, point.over - 1)
}

/// Whether the row bounds the variable on that side; an equality bounds it on both.
fn bounds(row: &Row, var: u32, side: Side) -> bool
    requires { IsSomeRow row.now }
    ensures { result ≡ bounds_on side row.now.equal (factor_of var row.now.terms) }
{
    let factor = factor_in(row, var);
    match side {
        Side::Below => factor > 0 || row.equal && factor < 0,
        Side::Above => factor < 0 || row.equal && factor > 0,
    }
}

/// What the absolute value of a factor times its variable is where the row's value is 0, for the value of the other terms.
fn across(factor: i64, rest: i128) -> i128
    requires { unsigned_abs rest ≤ 2 ^ 126 }
    ensures value { result ≡ (if int_lt (pos 0) factor then neg_ℤ rest else rest) }
    ensures small { unsigned_abs result ≤ 2 ^ 126 }
{
    if factor > 0 { negated(rest) } else { rest }
}

/// The row's bound on a variable whose number at the point is 0, multiplied by the point's denominator.
fn bound_of(row: &Row, var: u32, point: &Point) -> Fraction
    requires row { IsRow (length point.now.at) row.now }
    requires few { length point.now.at ≤ 128 }
    requires positive { pos 0 <ℤ point.now.over }
    requires small { IsSmall point.now }
    requires has { factor_of var row.now.terms ≢ pos 0 }
    ensures value { result ≡ bound_of var point.now row.now }
    ensures bound { IsBound result }
{
    let factor = factor_in(row, var);
    Fraction {
        number: across(factor, value_over(row, point)),
        by: factor.unsigned_abs(),
    }
}

/// Whether a number on the right side of the first bound is on that of the second.
fn is_as_tight(first: Fraction, second: Fraction, side: Side) -> bool
    requires first { 0 < first.by }
    requires second { 0 < second.by }
    ensures { IsTrue result ↔ IsAsTight side first second }
{
    match side {
        Side::Below => is_at_most(second, first),
        Side::Above => is_at_most(first, second),
    }
}

/// The tighter of two bounds, of which there may be one.
fn tighter(best: Option<Fraction>, other: Fraction, side: Side) -> Fraction
    requires best { IsAnyBound best }
    requires other { IsBound other }
    ensures bound { IsBound result }
    ensures respects { (k : ℕ) (y : ℤ) → Respects side result k y ↔ (RespectsAny side best k y × Respects side other k y) }
{
    match best {
        None => other,
        Some(best) => {
            if is_as_tight(best, other, side) {
                best
            } else {
                other
            }
        }
    }
}

/// The tighter of the best bound so far and the row's, where it has one on that side.
fn with_row(
    best: Option<Fraction>,
    row: &Row,
    var: u32,
    point: &Point,
    side: Side,
) -> Option<Fraction>
    requires best { IsAnyBound best }
    requires row { IsRow (length point.now.at) row.now }
    requires few { length point.now.at ≤ 128 }
    requires positive { pos 0 <ℤ point.now.over }
    requires small { IsSmall point.now }
    ensures bound { IsAnyBound result }
    ensures respects { (k : ℕ) (y : ℤ) → RespectsAny side result k y ↔ (RespectsAny side best k y × RespectsRow side var point.now k y row.now) }
{
    if !bounds(row, var, side) {
        return best;
    }
    Some(tighter(best, bound_of(row, var, point), side))
}

/// The tightest of the bounds that the rows set to a variable on that side.
pub(crate) fn tightest(rows: &[Row], var: u32, point: &Point, side: Side) -> Option<Fraction>
    requires rows { All (IsRow (length point.now.at)) rows.now }
    requires few { length point.now.at ≤ 128 }
    requires positive { pos 0 <ℤ point.now.over }
    requires small { IsSmall point.now }
    ensures bound { IsAnyBound result }
    ensures respects { (k : ℕ) (y : ℤ) → RespectsAny side result k y ↔ Each (RespectsRow side var point.now k y) rows.now }
{
    let mut best = None;
    for row in rows {
        best = with_row(best, row, var, point, side);
    }
    best
}
