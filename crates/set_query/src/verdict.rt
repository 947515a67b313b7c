//! Whether two instances never meet.
ghost use Rattle.std.specs.Prelude.{◌≡◌, IfOk, IfErr};
ghost use Rattle.set_query.specs.Cases.{IsPair, cases_of};
ghost use Rattle.set_query.specs.Verdicts.{IsOpenFault, IsVerdict, NeverMeet, opened};

use crate::pair::{Differ, Pair};
use crate::splitting::cases;
use affine_rows::Point;
use elimination::{Found, SetFault, find_point};
use std::alloc::Global;

/// Whether the instances of a pair can meet.
#[derive(Debug, Drop)]
pub enum Verdict {
    /// No case has a rational point.
    Excluded,
    /// The first case that has one, with the chosen point.
    Open {
        /// The place of the pair of variables that differ, from 0.
        case: u32,
        /// Whether the first instance's variable is the lesser one.
        below: bool,
        /// A point of the case.
        point: Point,
    },
}

/// The verdict that names the system at a place among the cases.
fn opened(differ: &Differ, at: usize, point: Point) -> Verdict
    ensures { result ≡ opened differ.now at point }
{
    match differ {
        Differ::Free => Verdict::Open {
            case: 0,
            below: false,
            point,
        },
        Differ::Among(_) => Verdict::Open {
            case: (at / 2).min(u32::MAX as usize) as u32,
            below: at % 2 == 0,
            point,
        },
    }
}

/// Whether the two instances never differ as they are to: `Excluded` exactly where none of their cases has a rational point,
/// and then they do so at no integer point of the system. Else the first case that has one is named, with the point of it
/// that `find_point` chooses; a place past 2^32 - 1 is named so. Where none is asked to differ, there is the one case 0.
///
/// The cases are asked in order until one is open. A fault is that of the first that is refused.
pub fn excluded(alloc: Global, pair: &Pair) -> Result<Verdict, SetFault>
    requires { IsPair pair.now }
    ensures verdict { IfOk result (IsVerdict pair.now.differ (cases_of pair.now.system pair.now.differ)) }
    ensures never { IfOk result (NeverMeet pair.now) }
    ensures fault { IfErr result (IsOpenFault (cases_of pair.now.system pair.now.differ)) }
{
    let systems = cases(alloc, pair)?;
    for at in 0..systems.len() {
        if let Found::Point(point) = find_point(alloc, &systems[at])? {
            return Ok(opened(&pair.differ, at, point));
        }
    }
    Ok(Verdict::Excluded)
}
