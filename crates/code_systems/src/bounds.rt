//! The rows that hold in each turn of a loop.
ghost use Rattle.std.specs.Prelude.{◌≡◌, ◌<◌, ◌≤◌, ◌^◌, true, unsigned_abs};
ghost use Rattle.elimination.specs.Stages.{IsSystem};

use crate::systems::{
    add_copies, add_difference, add_rows, copied, multiple, system_of, too_wide, variable,
};
use affine_rows::{Form, Listed, System};
use code_tree::Bound;
use elimination::SetFault;
use kernel_rules::MOST_VARIABLES;
use quasi_forms::{Difference, mentions_only};
use set_query::implied;
use std::alloc::{AllocError, Global};

/// The greatest divisor of a bound.
const GREATEST_DIVISOR: u64 = 1 << 62;

/// A side of a loop's variable.
#[derive(Clone, Copy, Debug, PartialEq, Eq)]
pub(crate) enum Side {
    Lower,
    Upper,
}

impl Side {
    fn other(self) -> Side {
        match self {
            Side::Lower => Side::Upper,
            Side::Upper => Side::Lower,
        }
    }
}

/// A loop's variable on a side, and what is known round the loop, over variables of which the loop's own is one.
#[derive(Clone, Copy)]
pub(crate) struct Turning<'a> {
    pub side: Side,
    pub var: u32,
    pub vars: &'a [u32],
    pub outer: &'a [Difference],
}

/// Whether the divisor is one from 1 to 2^62.
fn is_divisor(by: i64) -> bool
    ensures positive { result ≡ true → 0 < unsigned_abs by }
    ensures small { result ≡ true → unsigned_abs by ≤ 2 ^ 62 }
{
    0 < by && 0 < by.unsigned_abs() && by.unsigned_abs() <= GREATEST_DIVISOR
}

/// The opposite of a divisor.
fn opposite(by: i64) -> i64
    requires { unsigned_abs by ≤ 2 ^ 62 }
    ensures { unsigned_abs result ≤ 2 ^ 62 }
{
    -by
}

/// One less than a divisor, on the side on which the variable's multiple may pass the form by so much.
fn excess(side: Side, passing: Side, by: i64) -> u64
    requires positive { 0 < unsigned_abs by }
    requires small { unsigned_abs by ≤ 2 ^ 62 }
    ensures { result ≤ 2 ^ 62 }
{
    if side == passing {
        by.unsigned_abs() - 1
    } else {
        0
    }
}

/// The variable's multiple is at least the form, or at most that.
fn row_on(side: Side, var: Form, form: Form) -> Difference {
    match side {
        Side::Lower => Difference {
            form: var,
            less: form,
            equal: false,
        },
        Side::Upper => Difference {
            form,
            less: var,
            equal: false,
        },
    }
}

/// The variable is at least, or at most, the form.
fn form_row(alloc: Global, at: Turning<'_>, form: &Form) -> Result<Difference, AllocError> {
    let var = variable(alloc, at.var)?;
    Ok(row_on(at.side, var, form.copy(alloc)?))
}

/// The variable v is at least the form e divided by c and rounded down, which is to say that `c*v + c - 1 - e >= 0`; or
/// at most that, which is `e - c*v >= 0`.
fn quotient_row(
    alloc: Global,
    at: Turning<'_>,
    form: &Form,
    by: i64,
) -> Result<Difference, AllocError>
    requires positive { 0 < unsigned_abs by }
    requires small { unsigned_abs by ≤ 2 ^ 62 }
{
    let var = multiple(alloc, by, at.var, excess(at.side, Side::Lower, by))?;
    Ok(row_on(at.side, var, form.copy(alloc)?))
}

/// The variable v is at least the opposite of the form e divided by c and rounded down, which is to say that
/// `c*v + e >= 0`; or at most that, which is `-c*v + c - 1 - e >= 0`.
fn opposite_row(
    alloc: Global,
    at: Turning<'_>,
    form: &Form,
    by: i64,
) -> Result<Difference, AllocError>
    requires positive { 0 < unsigned_abs by }
    requires small { unsigned_abs by ≤ 2 ^ 62 }
{
    let var = multiple(
        alloc,
        opposite(by),
        at.var,
        excess(at.side, Side::Upper, by),
    )?;
    Ok(row_on(at.side.other(), var, form.copy(alloc)?))
}

/// The row of a bound that is a form or a quotient. A quotient by another number than one from 1 to 2^62 gives none.
fn plain_rows(
    alloc: Global,
    at: Turning<'_>,
    bound: &Bound,
) -> Result<Listed<Difference>, AllocError> {
    match bound {
        Bound::Form(form) => Listed::of_one(alloc, form_row(alloc, at, form)?),
        Bound::FloorOf(form, by) => {
            if is_divisor(*by) {
                Listed::of_one(alloc, quotient_row(alloc, at, form, *by)?)
            } else {
                Ok(Listed::new(alloc))
            }
        }
        Bound::MinusFloorOf(form, by) => {
            if is_divisor(*by) {
                Listed::of_one(alloc, opposite_row(alloc, at, form, *by)?)
            } else {
                Ok(Listed::new(alloc))
            }
        }
        Bound::Least(_) | Bound::Greatest(_) => Ok(Listed::new(alloc)),
    }
}

fn mentions_known(vars: &[u32], row: &Difference) -> bool {
    mentions_only(vars, row.form.quasi()) && mentions_only(vars, row.less.quasi())
}

/// Whether the other rows of the system imply its row at a place.
#[tactic(auto, using(crate::proofs::Removed::others_are, crate::proofs::Removed::taken_is))]
fn is_implied(alloc: Global, system: System, place: usize) -> Result<bool, SetFault>
    requires { IsSystem system }
{
    let width = system.width;
    let mut rows = system.rows.into_vec();
    if place >= rows.len() {
        return Ok(false);
    }
    let row = rows.remove(place);
    let others = System {
        width,
        rows: Listed::from_vec(rows),
    };
    implied(alloc, &others, &row)
}

/// Whether what is known round the loop and the given rows imply the row.
fn implies(
    alloc: Global,
    at: Turning<'_>,
    given: &[Difference],
    row: &Difference,
) -> Result<bool, SetFault> {
    let vars = at.vars;
    if vars.len() > MOST_VARIABLES {
        return Err(too_wide());
    }
    if !mentions_known(vars, row) {
        return Ok(false);
    }
    let mut rows = Vec::new(alloc);
    add_rows(alloc, at.outer, vars, &mut rows)?;
    add_rows(alloc, given, vars, &mut rows)?;
    let place = rows.len();
    add_difference(
        alloc, &row.form, vars, &row.less, vars, row.equal, &mut rows,
    )?;
    let system = system_of(alloc, &rows, vars.len())?;
    is_implied(alloc, system, place)
}

/// Whether what is known round the loop and each of the lists imply the row.
fn each_implies(
    alloc: Global,
    at: Turning<'_>,
    lists: &[Listed<Difference>],
    row: &Difference,
) -> Result<bool, SetFault> {
    for given in lists {
        if !implies(alloc, at, given.as_slice(), row)? {
            return Ok(false);
        }
    }
    Ok(true)
}

/// The rows of all lists.
fn joined(alloc: Global, lists: &[Listed<Difference>]) -> Result<Listed<Difference>, AllocError> {
    let mut made = Listed::new(alloc);
    for rows in lists {
        add_copies(alloc, rows.as_slice(), &mut made)?;
    }
    Ok(made)
}

/// Adds those of the rows that each of the lists implies.
fn add_shared(
    alloc: Global,
    at: Turning<'_>,
    lists: &[Listed<Difference>],
    rows: &[Difference],
    made: &mut Listed<Difference>,
) -> Result<(), SetFault> {
    for row in rows {
        if each_implies(alloc, at, lists, row)? {
            made.push(copied(alloc, row)?)?;
        }
    }
    Ok(())
}

/// Those rows of the lists that each of the lists implies.
fn shared(
    alloc: Global,
    at: Turning<'_>,
    lists: &[Listed<Difference>],
) -> Result<Listed<Difference>, SetFault> {
    let mut made = Listed::new(alloc);
    for rows in lists {
        add_shared(alloc, at, lists, rows.as_slice(), &mut made)?;
    }
    Ok(made)
}

/// The rows of each of the bounds.
#[cycle(known)]
fn lists_of(
    alloc: Global,
    at: Turning<'_>,
    bounds: &[Bound],
) -> Result<Listed<Listed<Difference>>, SetFault> {
    let mut made = Listed::new(alloc);
    for bound in bounds {
        made.push(known_rows(alloc, at, bound)?)?;
    }
    Ok(made)
}

/// The rows that hold where the variable keeps within the bound on its side: the row of a form or a quotient; where it keeps
/// within each of several bounds, the rows of all; and where it keeps within at least one of them, those of their rows that
/// for each of them its rows imply, with what is known round the loop. So a loop of several instructions has the rows that
/// hold for each of them.
#[cycle(known)]
pub(crate) fn known_rows(
    alloc: Global,
    at: Turning<'_>,
    bound: &Bound,
) -> Result<Listed<Difference>, SetFault> {
    match bound {
        Bound::Greatest(bounds) => {
            let lists = lists_of(alloc, at, bounds.as_slice())?;
            match at.side {
                Side::Lower => Ok(joined(alloc, lists.as_slice())?),
                Side::Upper => shared(alloc, at, lists.as_slice()),
            }
        }
        Bound::Least(bounds) => {
            let lists = lists_of(alloc, at, bounds.as_slice())?;
            match at.side {
                Side::Lower => shared(alloc, at, lists.as_slice()),
                Side::Upper => Ok(joined(alloc, lists.as_slice())?),
            }
        }
        _ => Ok(plain_rows(alloc, at, bound)?),
    }
}
