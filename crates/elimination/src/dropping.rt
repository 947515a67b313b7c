//! Rows that follow from others are dropped.
ghost use Rattle.std.specs.Prelude.{◌≡◌, [], ◌∷◌, ◌++◌, IfOk, OnOk, map, int_lt, not, if◌then◌else◌, pos};
ghost use Rattle.std.specs.Ordering.{int_eq};
ghost use Rattle.elimination.specs.Stages.{AreMarked, covers, has_no_terms, is_tighter, is_trivial, tightest_rows};

use crate::orders::{bound_order, direction_order, sorted_places};
use affine_rows::Row;
use std::alloc::{AllocError, Global};

fn has_no_terms(terms: &[(u32, i64)]) -> bool
    ensures { result ≡ has_no_terms terms.now }
{
    terms.is_empty()
}

/// Whether a constant is 0, or at least 0.
fn is_met(equal: bool, constant: i64) -> bool
    ensures { result ≡ (if equal then int_eq constant (pos 0) else not (int_lt constant (pos 0))) }
{
    if equal { constant == 0 } else { constant >= 0 }
}

#[tactic(auto, unfolding(crate::specs::Stages::is_trivial))]
fn is_trivial(row: &Row) -> bool
    ensures { result ≡ is_trivial row.now }
{
    has_no_terms(row.terms.as_slice()) && is_met(row.equal, row.constant)
}

fn is_tighter(first: &Row, second: &Row) -> bool
    ensures { result ≡ is_tighter first.now second.now }
{
    direction_order(first, second).is_eq() && bound_order(first, second).is_le()
}

/// Whether of two inequalities whose variable parts are positive multiples the first is at least as tight.
#[tactic(auto, unfolding(crate::specs::Stages::covers))]
fn covers(first: &Row, second: &Row) -> bool
    ensures { result ≡ covers first.now second.now }
{
    !first.equal && !second.equal && is_tighter(first, second)
}

/// Whether each row is not trivial.
fn nontrivial_rows(alloc: Global, rows: &[Row]) -> Result<Vec<bool>, AllocError>
    ensures { IfOk result (λ marks. marks.items ≡ map (λ r. not (is_trivial r)) rows.now) }
{
    let mut marks = Vec::new(alloc);
    for row in rows {
        marks.push(!is_trivial(row))?;
    }
    Ok(marks)
}

/// Whether each row stays. Of the inequalities of one direction, which stand together once they are sorted, only the first
/// one stays.
fn marks_of(alloc: Global, rows: &[Row]) -> Result<Vec<bool>, AllocError>
    ensures { IfOk result (λ marks. AreMarked rows.now marks.items) }
{
    let places = sorted_places(alloc, rows)?;
    let mut marks = nontrivial_rows(alloc, rows)?;
    for i in 1..places.len() {
        if covers(&rows[places[i - 1]], &rows[places[i]]) {
            marks[places[i]] = false;
        }
    }
    Ok(marks)
}

/// Adds the row where it stays.
fn keep(kept: &mut Vec<Row>, row: Row, stays: bool) -> Result<(), AllocError>
    ensures { OnOk result (kept.new.items ≡ kept.old.items ++ (if stays then row ∷ [] else [])) }
{
    if stays {
        kept.push(row)?;
    }
    Ok(())
}

/// The rows without those that hold without a variable and those that are not the tightest of their direction.
pub(crate) fn tightest_rows(alloc: Global, rows: Vec<Row>) -> Result<Vec<Row>, AllocError>
    ensures { IfOk result (λ kept. kept.items ≡ tightest_rows rows.items) }
{
    let marks = marks_of(alloc, &rows)?;
    let mut kept = Vec::new(alloc);
    let mut place = 0;
    for row in rows {
        keep(&mut kept, row, marks[place])?;
        place += 1;
    }
    Ok(kept)
}
