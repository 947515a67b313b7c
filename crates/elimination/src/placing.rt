//! The next number of a point.
ghost use Rattle.std.specs.Prelude.{◌≡◌, ◌+◌, ◌<◌, ◌≤◌, ◌^◌, ◌*ℤ◌, ◌<ℤ◌, IfOk, OnOk, IfErr, All, length, pos, unsigned_abs, if◌then◌else◌};
ghost use Rattle.affine_rows.specs.Rows.{IsRow, env_of};
ghost use Rattle.elimination.specs.Shadows.{HasPoint};
ghost use Rattle.elimination.specs.Points.{AreSmall, HoldAt, IsNext, IsNextFault, IsSmall, IsWide, moved_numbers, over_of};
ghost use Rattle.elimination.specs.Finding.{IsChoice, IsFixed};

use crate::bounding::{Side, tightest};
use crate::choosing::pick;
use crate::fault::SetFault;
use crate::fractions::Fraction;
use affine_rows::{Listed, Point, Row};
use std::alloc::Global;

/// The most that a number of a point may be, without its sign.
const WIDEST: u128 = 1 << 56;

/// The same number, where it does not pass 2^56 in absolute value.
fn narrow(number: i128, stage: u32) -> Result<i64, SetFault>
    ensures same { IfOk result (λ narrow. narrow ≡ number) }
    ensures small { OnOk result (unsigned_abs number ≤ 2 ^ 56) }
    ensures fault { IfErr result (λ fault. (fault ≡ SetFault.TooWide stage 0) × (2 ^ 56 < unsigned_abs number)) }
{
    if number.unsigned_abs() > WIDEST {
        return Err(SetFault::TooWide { stage, row: 0 });
    }
    Ok(number as i64)
}

fn scaled(by: u64, number: i64) -> i128
    requires { by ≤ 2 ^ 62 }
    ensures { result ≡ pos by *ℤ number }
{
    i128::from(by) * i128::from(number)
}

/// A number of the moved point.
fn moved_number(number: i64, to: Fraction, is_moved: bool) -> i128
    requires { to.by ≤ 2 ^ 62 }
    ensures { result ≡ (if is_moved then to.number else pos to.by *ℤ number) }
{
    if is_moved {
        to.number
    } else {
        scaled(to.by, number)
    }
}

/// The numbers multiplied, with another for one variable.
fn moved_numbers(
    alloc: Global,
    at: &[i64],
    var: u32,
    to: Fraction,
    stage: u32,
) -> Result<Vec<i64>, SetFault>
    requires { to.by ≤ 2 ^ 62 }
    ensures numbers { IfOk result (λ made. made.items ≡ moved_numbers to.by var to.number at.now) }
    ensures small { IfOk result (λ made. AreSmall made.items) }
    ensures fault { IfErr result (IsWide stage (moved_numbers to.by var to.number at.now)) }
{
    let mut made = Vec::new(alloc);
    for i in 0..at.len() {
        let number = moved_number(at[i], to, i == var as usize);
        made.push(narrow(number, stage)?)?;
    }
    Ok(made)
}

/// The number that is chosen for a variable by the rows, multiplied by the point's denominator.
fn choice(rows: &[Row], var: u32, point: &Point) -> Fraction
    requires rows { All (IsRow (length point.now.at)) rows.now }
    requires few { length point.now.at ≤ 128 }
    requires positive { pos 0 <ℤ point.now.over }
    requires small { IsSmall point.now }
    requires free { env_of point.now.at var ≡ pos 0 }
    requires some { HasPoint var rows.now (over_of point.now) (env_of point.now.at) }
    ensures { IsChoice rows.now var point.now result }
{
    let lower = tightest(rows, var, point, Side::Below);
    let upper = tightest(rows, var, point, Side::Above);
    pick(lower, upper, point.over.unsigned_abs())
}

/// The point with a number for the next variable.
pub(crate) fn next_point(
    alloc: Global,
    rows: &[Row],
    var: u32,
    point: &Point,
    stage: u32,
) -> Result<Point, SetFault>
    requires rows { All (IsRow (length point.now.at)) rows.now }
    requires few { length point.now.at ≤ 128 }
    requires within { var < length point.now.at }
    requires fixed { IsFixed (length point.now.at) var point.now }
    requires some { HasPoint var rows.now (over_of point.now) (env_of point.now.at) }
    ensures next { IfOk result (λ p. IsNext rows.now var point.now p) }
    ensures fixed { IfOk result (λ p. IsFixed (length point.now.at) (var + 1) p) }
    ensures holds { IfOk result (λ p. HoldAt rows.now p) }
    ensures fault { IfErr result (IsNextFault rows.now var point.now stage) }
{
    let to = choice(rows, var, point);
    let over = narrow(scaled(to.by, point.over), stage)?;
    let at = moved_numbers(alloc, point.at.as_slice(), var, to, stage)?;
    Ok(Point {
        over,
        at: Listed::from_vec(at),
    })
}
