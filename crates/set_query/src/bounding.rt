//! The rows that bound a variable.
ghost use Rattle.std.specs.Prelude.{◌≡◌, ◌++◌, ◌∷◌, [], All, IfOk, IfErr, OnOk, map, false};
ghost use Rattle.affine_rows.specs.Reduced.{IsSomeRow, reduced_row};
ghost use Rattle.elimination.specs.Refusals.{AreWithin, IsShadowFault};
ghost use Rattle.elimination.specs.Stages.{IsSystem, cancelled_from};
ghost use Rattle.set_query.specs.declared.bounding.Side.TheVariants.{Above, Below};
ghost use Rattle.set_query.specs.Bounding.{HoldThere, bound_rows, bounds_on, halves, last_rows, tight_rows};

use crate::ends::Bounds;
use crate::opposites::{inequality, opposite};
use affine_rows::{Listed, Row, System, factor, tighten};
use elimination::{SetFault, shadow};
use std::alloc::{AllocError, Global};

/// A side of a variable.
#[derive(Clone, Copy)]
pub(crate) enum Side {
    Below,
    Above,
}

/// Whether the inequality bounds the variable on the side.
fn bounds_on(side: Side, row: &Row, var: u32) -> bool
    requires { IsSomeRow row.now }
    ensures { result ≡ bounds_on side var row.now }
{
    let factor = factor(row.terms.as_slice(), var);
    match side {
        Side::Below => factor > 0,
        Side::Above => factor < 0,
    }
}

/// Adds the inequality, tightened, where it bounds the variable on the side.
fn add_half(side: Side, half: Row, var: u32, made: &mut Listed<Row>) -> Result<(), AllocError>
    requires some { IsSomeRow half }
    requires inequality { half.equal ≡ false }
    ensures { OnOk result (made.new ≡ made.old ++ tight_rows side var (half ∷ [])) }
{
    if bounds_on(side, &half, var) {
        let mut tight = half;
        tighten(&mut tight);
        made.push(tight)?;
    }
    Ok(())
}

/// Adds the halves of the row that bound the variable on the side.
fn add_halves(
    alloc: Global,
    side: Side,
    row: &Row,
    var: u32,
    made: &mut Listed<Row>,
) -> Result<(), AllocError>
    requires { IsSomeRow row.now }
    ensures { OnOk result (made.new ≡ made.old ++ tight_rows side var (halves row.now)) }
{
    add_half(side, inequality(alloc, row)?, var, made)?;
    if row.equal {
        add_half(side, opposite(alloc, row)?, var, made)?;
    }
    Ok(())
}

/// The tight inequalities of the rows that bound the variable on the side.
pub(crate) fn bound_rows(
    alloc: Global,
    side: Side,
    rows: &[Row],
    var: u32,
) -> Result<Listed<Row>, AllocError>
    requires { All IsSomeRow rows.now }
    ensures { IfOk result (λ made. made ≡ bound_rows side var rows.now) }
{
    let mut made = Listed::new(alloc);
    for row in rows {
        add_halves(alloc, side, row, var, &mut made)?;
    }
    Ok(made)
}

/// The rows that bound the variable where all others are cancelled but those kept: of the rows of the shadow, in their
/// order, those in which it has a positive factor, and those in which it has a negative one, tightened. An equality is
/// taken as two inequalities. Each of them holds at each integer point of the system. The faults are those of `shadow`.
pub fn bounds(alloc: Global, system: &System, keep: &[u32], var: u32) -> Result<Bounds, SetFault>
    requires { IsSystem system.now }
    ensures lower { IfOk result (λ made. made.lower ≡ bound_rows Below var (last_rows (keep.now ++ var ∷ []) system.now)) }
    ensures upper { IfOk result (λ made. made.upper ≡ bound_rows Above var (last_rows (keep.now ++ var ∷ []) system.now)) }
    ensures lower_holds { IfOk result (λ made. HoldThere system.now.rows made.lower) }
    ensures upper_holds { IfOk result (λ made. HoldThere system.now.rows made.upper) }
    ensures within { OnOk result (AreWithin (cancelled_from (keep.now ++ var ∷ []) 0 system.now.width) (map reduced_row system.now.rows)) }
    ensures fault { IfErr result (IsShadowFault (keep.now ++ var ∷ []) system.now.width (map reduced_row system.now.rows)) }
{
    let mut kept = Vec::from_slice(alloc, keep)?;
    kept.push(var)?;
    let last = shadow(alloc, system, &kept)?;
    let lower = bound_rows(alloc, Side::Below, last.rows.as_slice(), var)?;
    let upper = bound_rows(alloc, Side::Above, last.rows.as_slice(), var)?;
    Ok(Bounds { lower, upper })
}
