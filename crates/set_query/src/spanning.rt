//! The numbers between which a variable is.
ghost use Rattle.std.specs.Prelude.{◌≡◌, ◌∷◌, [], All, IfOk, IfErr, OnOk, map};
ghost use Rattle.elimination.specs.Shadows.{Each};
ghost use Rattle.elimination.specs.Stages.{IsSystem};
ghost use Rattle.set_query.specs.Hulls.{AreEnds, AreInside, IsHull, IsHullFault, IsLeast, IsRespected, IsSmallEnd, IsSpanFault, IsSpanned, lesser, opposite_end, wider};

use crate::bounding::{Side, bound_rows};
use crate::ends::Hull;
use affine_rows::{Row, System};
use elimination::{SetFault, shadow};
use std::alloc::Global;

/// The least constant of the rows that bound a variable from below, and of those that do from above.
#[derive(Clone, Copy)]
struct Ends {
    below: Option<i64>,
    above: Option<i64>,
}

/// The lesser of a number that there may be and another.
fn lesser(least: Option<i64>, number: i64) -> Option<i64>
    ensures { result ≡ lesser least number }
{
    match least {
        None => Some(number),
        Some(other) => Some(if number < other { number } else { other }),
    }
}

/// The least constant of the rows.
fn least_constant(rows: &[Row]) -> Option<i64>
    ensures { IsLeast (map (λ r. r.constant) rows.now) result }
{
    let mut least = None;
    for row in rows {
        least = lesser(least, row.constant);
    }
    least
}

/// The greater of two numbers, where there are both.
fn wider(one: Option<i64>, other: Option<i64>) -> Option<i64>
    requires one { IsSmallEnd one }
    requires other { IsSmallEnd other }
    ensures wider { result ≡ wider one other }
    ensures small { IsSmallEnd result }
{
    match (one, other) {
        (Some(one), Some(other)) => Some(if one < other { other } else { one }),
        _ => None,
    }
}

fn opposite_end(end: Option<i64>) -> Option<i64>
    requires { IsSmallEnd end }
    ensures { result ≡ opposite_end end }
{
    match end {
        None => None,
        Some(number) => Some(-number),
    }
}

/// The ends of one system.
fn ends_of(alloc: Global, system: &System, var: u32) -> Result<Ends, SetFault>
    requires { IsSystem system.now }
    ensures ends { IfOk result (AreEnds var (system.now ∷ [])) }
    ensures respected { OnOk result (IsRespected var system.now) }
    ensures within { OnOk result (IsSpanned var system.now) }
    ensures fault { IfErr result (λ fault. IsSpanFault var fault system.now) }
{
    let last = shadow(alloc, system, &[var])?;
    let lower = bound_rows(alloc, Side::Below, last.rows.as_slice(), var)?;
    let upper = bound_rows(alloc, Side::Above, last.rows.as_slice(), var)?;
    Ok(Ends {
        below: least_constant(lower.as_slice()),
        above: least_constant(upper.as_slice()),
    })
}

/// The ends of systems and of one more.
fn joined(ends: Ends, more: Ends) -> Ends
    requires ends_below { IsSmallEnd ends.below }
    requires ends_above { IsSmallEnd ends.above }
    requires more_below { IsSmallEnd more.below }
    requires more_above { IsSmallEnd more.above }
    ensures below { result.below ≡ wider ends.below more.below }
    ensures above { result.above ≡ wider ends.above more.above }
    ensures below_small { IsSmallEnd result.below }
    ensures above_small { IsSmallEnd result.above }
{
    Ends {
        below: wider(ends.below, more.below),
        above: wider(ends.above, more.above),
    }
}

/// The numbers between which the variable is in the systems: the least of their greatest lower bounds, and the greatest of
/// their least upper bounds. A system's bounds are those that its rows set where all other variables are cancelled, rounded
/// to whole numbers; an equality sets both. So the variable is between the ends at each integer point of each system.
///
/// An end is none exactly where there is no system, or where one of them has no row of that side. The systems are taken in
/// order. A fault is that of `shadow` for the first that is refused.
pub fn hull(alloc: Global, systems: &[System], var: u32) -> Result<Hull, SetFault>
    requires { All IsSystem systems.now }
    ensures hull { IfOk result (IsHull var systems.now) }
    ensures inside { IfOk result (AreInside var systems.now) }
    ensures within { OnOk result (Each (IsSpanned var) systems.now) }
    ensures fault { IfErr result (IsHullFault var systems.now) }
{
    if systems.is_empty() {
        return Ok(Hull {
            lower: None,
            upper: None,
        });
    }
    let mut ends = ends_of(alloc, &systems[0], var)?;
    for at in 1..systems.len() {
        let more = ends_of(alloc, &systems[at], var)?;
        ends = joined(ends, more);
    }
    Ok(Hull {
        lower: opposite_end(ends.below),
        upper: ends.above,
    })
}
