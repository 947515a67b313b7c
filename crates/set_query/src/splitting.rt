//! The cases in which two instances differ.
ghost use Rattle.std.specs.Prelude.{◌≡◌, ◌++◌, ◌∷◌, [], All, IfOk, IfErr};
ghost use Rattle.elimination.specs.Stages.{IsSystem};
ghost use Rattle.set_query.specs.Cases.{AreCovered, IsPair, cases_among, cases_of, difference, equal_row, less_row, with_row};

use crate::pair::{Differ, Pair};
use affine_rows::{Listed, Row, System, Terms};
use elimination::SetFault;
use std::alloc::{AllocError, Global};

/// The terms of y - x.
fn difference(alloc: Global, x: u32, y: u32) -> Result<Terms, AllocError>
    ensures { IfOk result (λ terms. terms ≡ difference x y) }
{
    if x < y {
        Terms::from_slice(alloc, &[(x, -1), (y, 1)])
    } else {
        Terms::from_slice(alloc, &[(y, 1), (x, -1)])
    }
}

/// x < y, as y - x - 1 >= 0.
#[tactic(auto, unfolding(crate::specs::Cases::less_row))]
fn less_row(alloc: Global, x: u32, y: u32) -> Result<Row, AllocError>
    ensures { IfOk result (λ row. row ≡ less_row x y) }
{
    Ok(Row {
        constant: -1,
        terms: difference(alloc, x, y)?,
        equal: false,
    })
}

/// x = y, as x - y = 0.
#[tactic(auto, unfolding(crate::specs::Cases::equal_row))]
fn equal_row(alloc: Global, x: u32, y: u32) -> Result<Row, AllocError>
    ensures { IfOk result (λ row. row ≡ equal_row x y) }
{
    Ok(Row {
        constant: 0,
        terms: difference(alloc, y, x)?,
        equal: true,
    })
}

fn copied_rows(alloc: Global, rows: &[Row]) -> Result<Listed<Row>, AllocError>
    ensures { IfOk result (λ made. made ≡ rows.now) }
{
    let mut made = Listed::new(alloc);
    for row in rows {
        made.push(row.copy(alloc)?)?;
    }
    Ok(made)
}

/// An equal system.
pub(crate) fn copied_system(alloc: Global, system: &System) -> Result<System, AllocError>
    ensures { IfOk result (λ made. made ≡ system.now) }
{
    Ok(System {
        width: system.width,
        rows: copied_rows(alloc, system.rows.as_slice())?,
    })
}

/// The system with a row behind its rows.
pub(crate) fn with_row(alloc: Global, system: &System, row: Row) -> Result<System, AllocError>
    ensures { IfOk result (λ made. made ≡ with_row system.now row) }
{
    let mut rows = copied_rows(alloc, system.rows.as_slice())?;
    rows.push(row)?;
    Ok(System {
        width: system.width,
        rows,
    })
}

/// The two cases in which x and y differ, below and above.
fn add_cases(
    alloc: Global,
    system: &System,
    x: u32,
    y: u32,
    made: &mut Vec<System>,
) -> Result<(), AllocError>
    ensures { IfOk result (λ _. made.new.items ≡ made.old.items ++ with_row system.now (less_row x y) ∷ with_row system.now (less_row y x) ∷ []) }
{
    let below = less_row(alloc, x, y)?;
    made.push(with_row(alloc, system, below)?)?;
    let above = less_row(alloc, y, x)?;
    made.push(with_row(alloc, system, above)?)?;
    Ok(())
}

fn cases_among(
    alloc: Global,
    system: &System,
    pairs: &[(u32, u32)],
) -> Result<Vec<System>, AllocError>
    ensures { IfOk result (λ made. made.items ≡ cases_among system.now pairs.now) }
{
    let mut made = Vec::new(alloc);
    let mut shared = copied_system(alloc, system)?;
    for &(x, y) in pairs {
        add_cases(alloc, &shared, x, y, &mut made)?;
        let equal = equal_row(alloc, x, y)?;
        shared = with_row(alloc, &shared, equal)?;
    }
    Ok(made)
}

/// The systems of the cases in which the two instances differ as they are to: the system as it is where none is asked to;
/// else for each pair of variables in order the case `below`, in which the first instance's is less, and the case `above`, in
/// which it is greater. In both the variables of the earlier pairs are equal. The case's rows stand behind the system's.
///
/// The integer points of the cases are those of the system at which the variables of some pair differ. There is no fault
/// but `OutOfMemory`.
#[tactic(auto, using(crate::proofs::Covering::are_covered))]
pub fn cases(alloc: Global, pair: &Pair) -> Result<Vec<System>, SetFault>
    requires { IsPair pair.now }
    ensures cases { IfOk result (λ made. made.items ≡ cases_of pair.now.system pair.now.differ) }
    ensures systems { IfOk result (λ made. All IsSystem made.items) }
    ensures covered { AreCovered }
    ensures fault { IfErr result (λ fault. fault ≡ SetFault.OutOfMemory) }
{
    match &pair.differ {
        Differ::Free => {
            let mut made = Vec::new(alloc);
            made.push(copied_system(alloc, &pair.system)?)?;
            Ok(made)
        }
        Differ::Among(pairs) => Ok(cases_among(alloc, &pair.system, pairs.as_slice())?),
    }
}
