ghost use Rattle.std.specs.Prelude.{◌≡◌, ◌∷◌, [], IfOk};

use affine_rows::{Listed, Row, System, Terms};
use elimination::{Found, SetFault, find_point};
use std::alloc::{AllocError, Global};
use std::test::Fail;

fn row(alloc: Global, constant: i64, terms: &[(u32, i64)], equal: bool) -> Result<Row, AllocError>
    ensures { IfOk result (λ row. row ≡ record { constant = constant; terms = terms.now; equal = equal }) }
{
    Ok(Row {
        constant,
        terms: Terms::from_slice(alloc, terms)?,
        equal,
    })
}

fn two_rows(alloc: Global, first: Row, second: Row) -> Result<Listed<Row>, AllocError>
    ensures { IfOk result (λ rows. rows ≡ first ∷ second ∷ []) }
{
    let mut rows = Listed::of_one(alloc, first)?;
    rows.push(second)?;
    Ok(rows)
}

fn is_point(found: &Result<Found, SetFault>, over: i64, first: i64, second: i64) -> bool {
    match found {
        Ok(Found::Point(point)) => {
            let at = point.at.as_slice();
            point.over == over && at.first() == Some(&first) && at.last() == Some(&second)
        }
        _ => false,
    }
}

#[test]
fn equal_bounds_give_a_fraction_and_no_bound_0(rt: HostRuntime) -> Result<(), Fail> {
    let alloc = rt.alloc();
    let lower = row(alloc, -1, &[(0, 2)], false)?;
    let upper = row(alloc, 1, &[(0, -2)], false)?;
    let rows = two_rows(alloc, lower, upper)?;
    let found = find_point(alloc, &System { width: 2, rows });
    assert!(rt; is_point(&found, 2, 1, 0));
    Ok(())
}

#[test]
fn bounds_that_miss_each_other_give_nothing(rt: HostRuntime) -> Result<(), Fail> {
    let alloc = rt.alloc();
    let lower = row(alloc, -1, &[(0, 1)], false)?;
    let upper = row(alloc, 0, &[(0, -1)], false)?;
    let rows = two_rows(alloc, lower, upper)?;
    let found = find_point(alloc, &System { width: 1, rows });
    assert!(rt; matches!(found, Ok(Found::Empty)));
    Ok(())
}

#[test]
fn the_least_whole_number_between_the_bounds_is_chosen(rt: HostRuntime) -> Result<(), Fail> {
    let alloc = rt.alloc();
    let lower = row(alloc, 7, &[(0, 3)], false)?;
    let upper = row(alloc, -1, &[(0, -1)], false)?;
    let rows = two_rows(alloc, lower, upper)?;
    let found = find_point(alloc, &System { width: 1, rows });
    assert!(rt; is_point(&found, 1, -2, -2));
    Ok(())
}

#[test]
fn the_lower_bound_is_chosen_where_no_whole_number_fits(rt: HostRuntime) -> Result<(), Fail> {
    let alloc = rt.alloc();
    let lower = row(alloc, 2, &[(0, 5)], false)?;
    let upper = row(alloc, -1, &[(0, -5)], false)?;
    let rows = two_rows(alloc, lower, upper)?;
    let found = find_point(alloc, &System { width: 1, rows });
    assert!(rt; is_point(&found, 5, -2, -2));
    Ok(())
}

#[test]
fn an_equality_fixes_a_fraction_and_the_next_is_whole(rt: HostRuntime) -> Result<(), Fail> {
    let alloc = rt.alloc();
    let first = row(alloc, -2, &[(0, 3)], true)?;
    let second = row(alloc, 0, &[(0, -1), (1, 1)], false)?;
    let rows = two_rows(alloc, first, second)?;
    let found = find_point(alloc, &System { width: 2, rows });
    assert!(rt; is_point(&found, 3, 2, 3));
    Ok(())
}

#[test]
fn without_a_lower_bound_the_greatest_is_chosen(rt: HostRuntime) -> Result<(), Fail> {
    let alloc = rt.alloc();
    let first = row(alloc, -3, &[(0, -2)], false)?;
    let second = row(alloc, 0, &[(0, 1), (1, -3)], false)?;
    let rows = two_rows(alloc, first, second)?;
    let found = find_point(alloc, &System { width: 2, rows });
    assert!(rt; is_point(&found, 1, -2, -1));
    Ok(())
}

#[test]
fn fractions_get_their_least_common_denominator(rt: HostRuntime) -> Result<(), Fail> {
    let alloc = rt.alloc();
    let first = row(alloc, -1, &[(0, 4)], true)?;
    let second = row(alloc, -1, &[(1, 6)], true)?;
    let rows = two_rows(alloc, first, second)?;
    let found = find_point(alloc, &System { width: 2, rows });
    assert!(rt; is_point(&found, 12, 3, 2));
    Ok(())
}

#[test]
fn a_wide_point_is_refused(rt: HostRuntime) -> Result<(), Fail> {
    let alloc = rt.alloc();
    let first = row(alloc, -1, &[(0, 1)], true)?;
    let second = row(alloc, -72_057_594_037_927_937, &[(1, 1)], false)?;
    let rows = two_rows(alloc, first, second)?;
    let found = find_point(alloc, &System { width: 2, rows });
    assert!(rt; matches!(found, Err(SetFault::TooWide { stage: 4, row: 0 })));
    Ok(())
}
