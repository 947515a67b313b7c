//! One variable is cancelled.
ghost use Rattle.std.specs.Prelude.{◌≡◌, ◌≤◌, All, IfOk, OnOk, IfErr, length, true};
ghost use Rattle.std.specs.List.{list_all};
ghost use Rattle.affine_rows.specs.Reduced.{IsSomeRow, fits_row};
ghost use Rattle.elimination.specs.Directions.{AreApart, RatiosAreMultiples};
ghost use Rattle.elimination.specs.Refusals.{IsRowFault, IsStageFault};
ghost use Rattle.elimination.specs.Shadows.{IsShadow};
ghost use Rattle.elimination.specs.Stages.{IsSystem, cancelled_rows, stage_rows};

use crate::dropping::tightest_rows;
use crate::fault::SetFault;
use crate::pairs::{add_all_pairs, add_kept};
use crate::rows::{first_equality, made_count};
use crate::substitution::add_substituted;
use affine_rows::{Listed, Row, System};
use std::alloc::Global;

/// The most rows that a stage may have before any is dropped.
const MOST_ROWS: u128 = 65_536;

fn cancelled_rows(alloc: Global, rows: &[Row], var: u32, number: u32) -> Result<Vec<Row>, SetFault>
    requires { All IsSomeRow rows.now }
    ensures rows { IfOk result (λ made. made.items ≡ cancelled_rows var rows.now) }
    ensures fits { IfOk result (λ made. list_all fits_row made.items ≡ true) }
    ensures fault { IfErr result (IsRowFault number 0 (cancelled_rows var rows.now)) }
{
    let mut made = Vec::new(alloc);
    let at = first_equality(rows, var);
    if at < rows.len() {
        let equality = &rows[at];
        add_substituted(alloc, equality, &rows[..at], var, number, &mut made)?;
        add_substituted(alloc, equality, &rows[at + 1..], var, number, &mut made)?;
        return Ok(made);
    }
    add_kept(alloc, rows, var, &mut made)?;
    add_all_pairs(alloc, rows, var, number, &mut made)?;
    Ok(made)
}

/// The system without a variable, by Fourier's and Motzkin's elimination. It holds exactly at those values of the other
/// variables at which the system has a rational point.
///
/// An equality that has the variable cancels it in the other rows. Else the rows without it come first, followed by the
/// combinations of each row that bounds it from below with each that bounds it from above. The rows are reduced; then
/// those that hold without a variable are dropped, and of two inequalities whose variable parts are positive multiples the
/// one whose bound is not tighter, on a tie the later one. `number` is the stage's number in a fault.
#[tactic(auto, using(crate::proofs::Directions::ratios_are))]
pub fn stage(alloc: Global, system: &System, var: u32, number: u32) -> Result<System, SetFault>
    requires { IsSystem system.now }
    ensures width { IfOk result (λ made. made.width ≡ system.now.width) }
    ensures rows { IfOk result (λ made. made.rows ≡ stage_rows var system.now.rows) }
    ensures system { IfOk result IsSystem }
    ensures shadow { IfOk result (λ made. IsShadow var system.now.rows made.rows) }
    ensures apart { IfOk result (λ made. AreApart made.rows) }
    ensures directions { RatiosAreMultiples }
    ensures few { OnOk result (length (cancelled_rows var system.now.rows) ≤ 65536) }
    ensures fits { OnOk result (list_all fits_row (cancelled_rows var system.now.rows) ≡ true) }
    ensures fault { IfErr result (IsStageFault number (cancelled_rows var system.now.rows)) }
{
    let rows = system.rows.as_slice();
    if made_count(rows, var) > MOST_ROWS {
        return Err(SetFault::TooManyRows { stage: number });
    }
    let made = cancelled_rows(alloc, rows, var, number)?;
    let kept = tightest_rows(alloc, made)?;
    Ok(System {
        width: system.width,
        rows: Listed::from_vec(kept),
    })
}
