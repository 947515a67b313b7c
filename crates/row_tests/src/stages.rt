ghost use Rattle.std.specs.Prelude.{◌≤◌, ◌^◌, All, IfOk, OnOk, map, unsigned_abs};
ghost use Rattle.std.specs.List.Sorted.{IsStrictlyIncreasing};
ghost use Rattle.affine_rows.specs.Rows.{IsRow, IsTerm};
ghost use Rattle.elimination.specs.Stages.{IsSystem};

use affine_rows::{Listed, Row, System, Terms};
use elimination::{SetFault, shadow, stage};
use std::alloc::{AllocError, Global};
use std::test::Fail;

fn add(
    alloc: Global,
    rows: &mut Listed<Row>,
    constant: i64,
    terms: &[(u32, i64)],
    equal: bool,
) -> Result<(), AllocError>
    requires rows { All (IsRow 3) rows.old }
    requires constant { unsigned_abs constant ≤ 2 ^ 62 }
    requires terms { All (IsTerm 3) terms.now }
    requires rising { IsStrictlyIncreasing (map (λ t. t.0) terms.now) }
    ensures { OnOk result (All (IsRow 3) rows.new) }
{
    rows.push(Row {
        constant,
        terms: Terms::from_slice(alloc, terms)?,
        equal,
    })?;
    Ok(())
}

/// Lower rows `x - k >= 0` and upper rows `-x + y + k >= 0`, each for k from 0 on.
fn crossed(alloc: Global, lower: u32, upper: u32) -> Result<System, AllocError>
    ensures { IfOk result IsSystem }
{
    let mut rows = Listed::new(alloc);
    for low in 0..lower {
        add(alloc, &mut rows, -i64::from(low), &[(0, 1)], false)?;
    }
    for high in 0..upper {
        add(alloc, &mut rows, i64::from(high), &[(0, -1), (1, 1)], false)?;
    }
    Ok(System { width: 3, rows })
}

#[test]
fn a_wide_row_is_refused(rt: HostRuntime) -> Result<(), Fail> {
    let alloc = rt.alloc();
    let mut rows = Listed::new(alloc);
    add(
        alloc,
        &mut rows,
        -1,
        &[(0, 1_099_511_627_776), (1, 1_073_741_824)],
        false,
    )?;
    add(
        alloc,
        &mut rows,
        0,
        &[(0, -1_099_511_627_777), (1, 1)],
        false,
    )?;
    let made = stage(alloc, &System { width: 3, rows }, 0, 1);
    assert!(rt; matches!(made, Err(SetFault::TooWide { stage: 1, row: 0 })));
    Ok(())
}

#[test]
fn the_most_rows_give_one(rt: HostRuntime) -> Result<(), Fail> {
    let alloc = rt.alloc();
    let many = stage(alloc, &crossed(alloc, 256, 257)?, 0, 1);
    assert!(rt; matches!(many, Err(SetFault::TooManyRows { stage: 1 })));
    let made = stage(alloc, &crossed(alloc, 256, 256)?, 0, 1)?;
    assert_eq!(rt; made.rows.len(), 1);
    for row in made.rows.as_slice() {
        assert_eq!(rt; row.constant, -255);
        assert_eq!(rt; row.terms.as_slice(), [(1, 1)].as_slice());
        assert!(rt; !row.equal);
    }
    Ok(())
}

/// Three rows and an equality, which leaves two of them and a third that is equal to the first.
fn cancelled(alloc: Global) -> Result<System, AllocError>
    ensures { IfOk result IsSystem }
{
    let mut rows = Listed::new(alloc);
    add(alloc, &mut rows, 0, &[(0, 1), (1, -2)], false)?;
    add(alloc, &mut rows, 0, &[(0, 1), (2, 1)], false)?;
    add(alloc, &mut rows, -3, &[(0, 1), (1, -1)], true)?;
    add(alloc, &mut rows, 9, &[(1, -3)], false)?;
    Ok(System { width: 3, rows })
}

#[test]
fn an_equality_cancels_and_of_a_tie_the_earlier_row_stays(rt: HostRuntime) -> Result<(), Fail> {
    let alloc = rt.alloc();
    let made = stage(alloc, &cancelled(alloc)?, 0, 1)?;
    let rows = made.rows.as_slice();
    assert_eq!(rt; rows.len(), 2);
    assert_eq!(rt; rows[0].constant, 3);
    assert_eq!(rt; rows[0].terms.as_slice(), [(1, -1)].as_slice());
    assert_eq!(rt; rows[1].terms.as_slice(), [(1, 1), (2, 1)].as_slice());
    let left = shadow(alloc, &made, &[2])?;
    assert_eq!(rt; left.rows.len(), 1);
    Ok(())
}
