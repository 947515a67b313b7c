//! A rational point of a system.
ghost use Rattle.std.specs.Prelude.{◌≡◌, ◌↔◌, ◌≤◌, ◌<◌, ◌<ℤ◌, IfOk, IfErr, OnOk, IsTrue, [], All, length, map, pos};
ghost use Rattle.affine_rows.specs.Rows.{IsRow, env_of};
ghost use Rattle.affine_rows.specs.Reduced.{HoldsOver, reduced_row};
ghost use Rattle.elimination.specs.Stages.{IsSystem, cancelled_from};
ghost use Rattle.elimination.specs.Refusals.{AreWithin, IsShadowFault};
ghost use Rattle.elimination.specs.Points.{HoldAt, IsPointFault, IsSmall, origin, over_of};
ghost use Rattle.elimination.specs.Finding.{AreStages, IsFixed, IsFound, IsTheChosen, IsWithinLimits};

use crate::bounding::value_over;
use crate::fault::SetFault;
use crate::placing::next_point;
use crate::projection::reduced_system;
use crate::stages::stage;
use affine_rows::{Listed, Point, Row, System};
use std::alloc::{AllocError, Global};

/// What a system has.
#[derive(Debug, Drop)]
pub enum Found {
    /// No rational point.
    Empty,
    /// The chosen point.
    Point(Point),
}

/// The reduced system, followed by those in which the last variables are cancelled one by one.
fn all_stages(alloc: Global, system: &System) -> Result<Vec<System>, SetFault>
    requires { IsSystem system.now }
    ensures stages { IfOk result (λ made. AreStages system.now.width (map reduced_row system.now.rows) 0 made.items) }
    ensures within { OnOk result (AreWithin (cancelled_from [] 0 system.now.width) (map reduced_row system.now.rows)) }
    ensures fault { IfErr result (IsShadowFault [] system.now.width (map reduced_row system.now.rows)) }
{
    let mut stages = Vec::new(alloc);
    stages.push(reduced_system(alloc, system)?)?;
    let mut next = system.width;
    'variables: while next > 0 {
        let var = next - 1;
        let made = stage(alloc, &stages[stages.len() - 1], var, system.width - var)?;
        stages.push(made)?;
        next = var;
    }
    Ok(stages)
}

/// The point whose numbers are 0.
fn origin(alloc: Global, width: u32) -> Result<Point, AllocError>
    ensures { IfOk result (λ p. p ≡ origin width) }
{
    let at = vec![in alloc; 0_i64; width as usize]?;
    Ok(Point {
        over: 1,
        at: Listed::from_vec(at),
    })
}

fn holds(row: &Row, point: &Point) -> bool
    requires row { IsRow (length point.now.at) row.now }
    requires few { length point.now.at ≤ 128 }
    requires positive { pos 0 <ℤ point.now.over }
    requires small { IsSmall point.now }
    ensures { IsTrue result ↔ HoldsOver (over_of point.now) (env_of point.now.at) row.now }
{
    let value = value_over(row, point);
    if row.equal { value == 0 } else { value >= 0 }
}

fn all_hold(rows: &[Row], point: &Point) -> bool
    requires rows { All (IsRow (length point.now.at)) rows.now }
    requires few { length point.now.at ≤ 128 }
    requires positive { pos 0 <ℤ point.now.over }
    requires small { IsSmall point.now }
    ensures { IsTrue result ↔ HoldAt rows.now point.now }
{
    for row in rows {
        if !holds(row, point) {
            return false;
        }
    }
    true
}

/// A rational point of the system, if it has one.
///
/// All variables are cancelled, the last first, in stages that count from 1. Then their numbers are chosen in order by the
/// rows in which the later variables are cancelled, at the numbers chosen before: of the numbers that a variable may be,
/// the least whole one; where none is whole, the least; where the whole ones have no least, the greatest; of all numbers 0.
/// The numbers are put over their least common denominator. Where this or one of them passes 2^56 in absolute value, the
/// fault is `TooWide` in row 0 of the stage `width + 1 + place`, for the place of the variable just chosen.
pub fn find_point(alloc: Global, system: &System) -> Result<Found, SetFault>
    requires { IsSystem system.now }
    ensures found { IfOk result (IsFound system.now.width system.now.rows) }
    ensures chosen { IfOk result (IsTheChosen system.now.width (map reduced_row system.now.rows)) }
    ensures within { OnOk result (IsWithinLimits system.now.width (map reduced_row system.now.rows)) }
    ensures fault { IfErr result (IsPointFault system.now.width (map reduced_row system.now.rows)) }
{
    let stages = all_stages(alloc, system)?;
    let width = system.width;
    let mut point = origin(alloc, width)?;
    if !all_hold(stages[width as usize].rows.as_slice(), &point) {
        return Ok(Found::Empty);
    }
    for var in 0..width {
        let rows = stages[(width - 1 - var) as usize].rows.as_slice();
        point = next_point(alloc, rows, var, &point, width + 1 + var)?;
    }
    Ok(Found::Point(point))
}
