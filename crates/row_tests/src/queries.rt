ghost use Rattle.std.specs.Prelude.{◌≡◌, ◌≤◌, ◌^◌, ◌∷◌, [], All, IfOk, OnOk, map, unsigned_abs};
ghost use Rattle.std.specs.List.Sorted.{IsStrictlyIncreasing};
ghost use Rattle.affine_rows.specs.Rows.{IsRow, IsTerm};
ghost use Rattle.set_query.specs.Cases.{IsPair};

use affine_rows::{Listed, Row, System, Terms};
use set_query::{Differ, Pair, Verdict, bounds, cases, excluded, hull, implied};
use std::alloc::{AllocError, Global};
use std::test::Fail;

fn row(alloc: Global, constant: i64, terms: &[(u32, i64)], equal: bool) -> Result<Row, AllocError>
    ensures { IfOk result (λ row. row ≡ record { constant = constant; terms = terms.now; equal = equal }) }
{
    Ok(Row {
        constant,
        terms: Terms::from_slice(alloc, terms)?,
        equal,
    })
}

fn add(
    alloc: Global,
    rows: &mut Listed<Row>,
    constant: i64,
    terms: &[(u32, i64)],
    equal: bool,
) -> Result<(), AllocError>
    requires rows { All (IsRow 5) rows.old }
    requires constant { unsigned_abs constant ≤ 2 ^ 62 }
    requires terms { All (IsTerm 5) terms.now }
    requires rising { IsStrictlyIncreasing (map (λ t. t.0) terms.now) }
    ensures { OnOk result (All (IsRow 5) rows.new) }
{
    rows.push(Row {
        constant,
        terms: Terms::from_slice(alloc, terms)?,
        equal,
    })?;
    Ok(())
}

#[test]
fn a_row_that_holds_at_0_alone_is_not_implied(rt: HostRuntime) -> Result<(), Fail> {
    let alloc = rt.alloc();
    let mut rows = Listed::new(alloc);
    add(alloc, &mut rows, 1, &[(0, -1)], false)?;
    let system = System { width: 5, rows };
    let asked = row(alloc, 0, &[(0, -1)], false)?;
    assert!(rt; !implied(alloc, &system, &asked)?);
    let wider = row(alloc, 1, &[(0, -1)], false)?;
    assert!(rt; implied(alloc, &system, &wider)?);
    Ok(())
}

fn is_last(system: Option<&System>, terms: &[(u32, i64)]) -> bool {
    match system {
        Some(system) => match system.rows.as_slice().last() {
            Some(row) => row.constant == -1 && row.terms.as_slice() == terms,
            None => false,
        },
        None => false,
    }
}

#[test]
fn cases_come_below_and_then_above(rt: HostRuntime) -> Result<(), Fail> {
    let alloc = rt.alloc();
    let differ = Differ::Among(Listed::from_slice(alloc, &[(0, 2), (3, 1)])?);
    let system = System {
        width: 5,
        rows: Listed::new(alloc),
    };
    let made = cases(alloc, &Pair { system, differ })?;
    assert_eq!(rt; made.len(), 4);
    assert!(rt; is_last(made.get(0), &[(0, -1), (2, 1)]));
    assert!(rt; is_last(made.get(2), &[(1, 1), (3, -1)]));
    assert!(rt; is_last(made.get(3), &[(1, -1), (3, 1)]));
    Ok(())
}

/// Two writes of the cells that the terms make equal, by groups `g < n` of 16 items `l`; the variables are n, g, l, and
/// those of the second write.
fn writes(alloc: Global, cells: &[(u32, i64)]) -> Result<Pair, AllocError>
    requires terms { All (IsTerm 5) cells.now }
    requires rising { IsStrictlyIncreasing (map (λ t. t.0) cells.now) }
    ensures { IfOk result IsPair }
{
    let mut rows = Listed::new(alloc);
    add(alloc, &mut rows, 0, &[(1, 1)], false)?;
    add(alloc, &mut rows, -1, &[(0, 1), (1, -1)], false)?;
    add(alloc, &mut rows, 0, &[(2, 1)], false)?;
    add(alloc, &mut rows, 15, &[(2, -1)], false)?;
    add(alloc, &mut rows, 0, &[(3, 1)], false)?;
    add(alloc, &mut rows, -1, &[(0, 1), (3, -1)], false)?;
    add(alloc, &mut rows, 0, &[(4, 1)], false)?;
    add(alloc, &mut rows, 15, &[(4, -1)], false)?;
    add(alloc, &mut rows, 0, cells, true)?;
    Ok(Pair {
        system: System { width: 5, rows },
        differ: Differ::Among(Listed::from_slice(alloc, &[(1, 3), (2, 4)])?),
    })
}

fn is_open(verdict: &Verdict, at: &[i64]) -> bool {
    match verdict {
        Verdict::Open { case, below, point } => {
            *case == 0 && *below && point.over == 1 && point.at.as_slice() == at
        }
        Verdict::Excluded => false,
    }
}

#[test]
fn tiles_that_overlap_meet_and_others_do_not(rt: HostRuntime) -> Result<(), Fail> {
    let alloc = rt.alloc();
    let overlapping = writes(alloc, &[(1, 15), (2, 1), (3, -15), (4, -1)])?;
    let verdict = excluded(alloc, &overlapping)?;
    assert!(rt; is_open(&verdict, &[2, 0, 15, 1, 0]));
    let apart = writes(alloc, &[(1, 16), (2, 1), (3, -16), (4, -1)])?;
    let verdict = excluded(alloc, &apart)?;
    assert!(rt; matches!(verdict, Verdict::Excluded));
    Ok(())
}

#[test]
fn a_hull_holds_the_rounded_bounds_of_both(rt: HostRuntime) -> Result<(), Fail> {
    let alloc = rt.alloc();
    let mut one = Listed::new(alloc);
    add(alloc, &mut one, -3, &[(0, 2)], false)?;
    add(alloc, &mut one, 4, &[(0, -1)], false)?;
    let mut two = Listed::new(alloc);
    add(alloc, &mut two, 5, &[(0, 3), (1, -1)], false)?;
    add(alloc, &mut two, 0, &[(1, 1)], false)?;
    add(alloc, &mut two, 19, &[(0, -3)], false)?;
    let one = System {
        width: 5,
        rows: one,
    };
    let two = System {
        width: 5,
        rows: two,
    };
    let made = hull(alloc, &[one, two], 0)?;
    assert!(rt; made.lower == Some(-1));
    assert!(rt; made.upper == Some(6));
    Ok(())
}

#[test]
fn the_column_of_a_triangle_is_bounded_by_its_size(rt: HostRuntime) -> Result<(), Fail> {
    let alloc = rt.alloc();
    let mut rows = Listed::new(alloc);
    add(alloc, &mut rows, 0, &[(1, 1)], false)?;
    add(alloc, &mut rows, 0, &[(1, -1), (2, 1)], false)?;
    add(alloc, &mut rows, -1, &[(0, 1), (2, -1)], false)?;
    let triangle = System { width: 5, rows };
    let made = bounds(alloc, &triangle, &[0], 2)?;
    assert_eq!(rt; made.lower.len(), 1);
    for row in made.lower.as_slice() {
        assert_eq!(rt; row.constant, 0);
        assert_eq!(rt; row.terms.as_slice(), [(2, 1)].as_slice());
    }
    assert_eq!(rt; made.upper.len(), 1);
    for row in made.upper.as_slice() {
        assert_eq!(rt; row.constant, -1);
        assert_eq!(rt; row.terms.as_slice(), [(0, 1), (2, -1)].as_slice());
    }
    Ok(())
}
