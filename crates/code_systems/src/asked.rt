//! Whether two items can come to one cell.
ghost use Rattle.std.specs.Prelude.{◌≤◌, length};

use crate::access::{Access, same_forms};
use crate::differing::differing_axes;
use crate::frame::{Frame, GROUP_AXES};
use crate::questions::{Apart, Question, Turns};
use crate::systems::{add_difference, add_rows, system_of, too_wide};
use crate::vars::{Both, vars_of};
use affine_rows::{Form, Listed, Point};
use elimination::SetFault;
use expr_tree::QuasiRow;
use kernel_rules::{MOST_VARIABLES, number, pair_over, variable};
use quasi_forms::{Difference, is_among, place_in};
use set_query::{Verdict, excluded};
use std::alloc::{AllocError, Global};

/// A case of a question that has a rational point: the axis on which the items differ, whether the first item's number is
/// the lesser one, and the chosen point, over the parameters, the axes of the first access with an iname and its loops, the
/// same of the second, the other axes of both, and the floors.
#[derive(Drop)]
pub struct Open {
    pub axis: Option<u32>,
    pub below: bool,
    pub point: Point,
}

/// Adds the rows that hold for the arguments.
fn add_context(
    alloc: Global,
    rows: &[QuasiRow],
    vars: &[u32],
    made: &mut Vec<Difference>,
) -> Result<(), AllocError>
    requires { length vars.now ≤ 128 }
{
    let zero = number(alloc, 0);
    for row in rows {
        add_difference(alloc, &row.form, vars, &zero, vars, row.equal, made)?;
    }
    Ok(())
}

/// Adds the rows that say that the subscripts are equal. Of subscripts of other counts or shapes nothing is known.
fn add_equal_places(
    alloc: Global,
    first: &Access,
    second: &Access,
    vars: &Both,
    made: &mut Vec<Difference>,
) -> Result<(), AllocError>
    requires first { length vars.now.first.items ≤ 128 }
    requires second { length vars.now.second.items ≤ 128 }
{
    let places = first.place.as_slice();
    let others = second.place.as_slice();
    if places.len() != others.len()
        || !same_forms(first.shape.as_slice(), second.shape.as_slice())
    {
        return Ok(());
    }
    for at in 0..places.len() {
        add_difference(
            alloc,
            &places[at],
            &vars.first,
            &others[at],
            &vars.second,
            true,
            made,
        )?;
    }
    Ok(())
}

/// Adds the row that says that the variable of the first access equals that of the second.
fn add_equal_var(
    alloc: Global,
    vars: &Both,
    var: u32,
    made: &mut Vec<Difference>,
) -> Result<(), AllocError>
    requires first { length vars.now.first.items ≤ 128 }
    requires second { length vars.now.second.items ≤ 128 }
{
    made.push(Difference {
        form: variable(alloc, &vars.first, var)?,
        less: variable(alloc, &vars.second, var)?,
        equal: true,
    })?;
    Ok(())
}

/// Adds the row that says that the variable of the first access is less than that of the second.
fn add_earlier(
    alloc: Global,
    vars: &Both,
    var: u32,
    made: &mut Vec<Difference>,
) -> Result<(), AllocError>
    requires first { length vars.now.first.items ≤ 128 }
    requires second { length vars.now.second.items ≤ 128 }
{
    made.push(Difference {
        form: variable(alloc, &vars.second, var)?,
        less: Form::affine(
            alloc,
            1,
            Listed::of_one(alloc, (place_in(&vars.first, var), 1))?,
        ),
        equal: false,
    })?;
    Ok(())
}

/// Whether the group axis has one number for both items.
fn is_shared(frame: &Frame<'_>, apart: Apart, axis: u32) -> bool {
    match apart {
        Apart::Groups => frame.is_alone(axis),
        Apart::Items => true,
    }
}

/// Adds the rows that say that the group axes are equal: those with one group, and for items of one group all.
fn add_equal_axes(
    alloc: Global,
    frame: &Frame<'_>,
    apart: Apart,
    vars: &Both,
    made: &mut Vec<Difference>,
) -> Result<(), AllocError>
    requires first { length vars.now.first.items ≤ 128 }
    requires second { length vars.now.second.items ≤ 128 }
{
    for axis in 0..GROUP_AXES {
        if is_shared(frame, apart, axis) {
            add_equal_var(alloc, vars, frame.axis(axis), made)?;
        }
    }
    Ok(())
}

/// Those loops round the first access of which both items are at one turn, where the second access has these loops: all of
/// them that are round both; where the first item is at an earlier turn of one, those outside that one; or none.
fn equal_loops(
    alloc: Global,
    turns: Turns,
    first: &[u32],
    second: &[u32],
) -> Result<Vec<u32>, AllocError> {
    let mut made = Vec::new(alloc);
    for var in first {
        if turns.are_free_in(*var) {
            return Ok(made);
        }
        if is_among(second, *var) {
            made.push(*var)?;
        }
    }
    Ok(made)
}

/// Adds the rows that say at which turns of the loops both items are.
fn add_turns(
    alloc: Global,
    turns: Turns,
    equal: &[u32],
    vars: &Both,
    made: &mut Vec<Difference>,
) -> Result<(), AllocError>
    requires first { length vars.now.first.items ≤ 128 }
    requires second { length vars.now.second.items ≤ 128 }
{
    for var in equal {
        add_equal_var(alloc, vars, *var, made)?;
    }
    match turns {
        Turns::Any | Turns::Same => Ok(()),
        Turns::Earlier(var) => add_earlier(alloc, vars, var, made),
    }
}

/// The rows of the system: those that hold round the first access, those round the second, those that hold for the
/// arguments, and the equal subscripts, group axes and loops.
fn rows_of(
    alloc: Global,
    frame: &Frame<'_>,
    question: Question<'_>,
    vars: &Both,
) -> Result<Vec<Difference>, AllocError>
    requires first { length vars.now.first.items ≤ 128 }
    requires second { length vars.now.second.items ≤ 128 }
{
    let first = question.first.access;
    let second = question.second.access;
    let outer = first.there.loops.as_slice();
    let equal = equal_loops(alloc, question.turns, outer, second.there.loops.as_slice())?;
    let mut rows = Vec::new(alloc);
    add_rows(alloc, first.there.rows.as_slice(), &vars.first, &mut rows)?;
    add_rows(alloc, second.there.rows.as_slice(), &vars.second, &mut rows)?;
    add_context(alloc, frame.facts.rows.as_slice(), &vars.first, &mut rows)?;
    add_equal_places(alloc, first, second, vars, &mut rows)?;
    add_equal_axes(alloc, frame, question.apart, vars, &mut rows)?;
    add_turns(alloc, question.turns, &equal, vars, &mut rows)?;
    Ok(rows)
}

/// The variables that are to differ.
fn pairs_of(
    alloc: Global,
    frame: &Frame<'_>,
    vars: &Both,
    axes: &[u32],
) -> Result<Listed<(u32, u32)>, AllocError>
    requires first { length vars.now.first.items ≤ 128 }
    requires second { length vars.now.second.items ≤ 128 }
{
    let mut pairs = Listed::new(alloc);
    for axis in axes {
        let var = frame.axis(*axis);
        pairs.push((place_in(&vars.first, var), place_in(&vars.second, var)))?;
    }
    Ok(pairs)
}

/// The first case of the question that has a rational point, if there is one: two items that differ on one of the axes on
/// which they may, come to one cell by the two accesses at such turns, where all rows hold that are known round the
/// accesses and for the arguments. A group axis with one group is equal for both; with no other there is no case. The
/// faults are those of `excluded`, and `TooWide` in row 0 of stage 0 where the system passes a limit before its first
/// stage.
#[tactic(auto, using(kernel_rules::proofs::KeptRows::pair_is))]
pub fn open_case(
    alloc: Global,
    frame: &Frame<'_>,
    question: Question<'_>,
) -> Result<Option<Open>, SetFault> {
    let axes = differing_axes(
        alloc,
        frame,
        question.apart,
        question.first.access.place.as_slice(),
    )?;
    if axes.is_empty() {
        return Ok(None);
    }
    let vars = vars_of(alloc, frame, question.first, question.second)?;
    if vars.first.len() > MOST_VARIABLES || vars.second.len() > MOST_VARIABLES {
        return Err(too_wide());
    }
    let rows = rows_of(alloc, frame, question, &vars)?;
    let system = system_of(alloc, &rows, vars.second.len())?;
    let pairs = pairs_of(alloc, frame, &vars, &axes)?;
    match excluded(alloc, &pair_over(system, pairs, true))? {
        Verdict::Excluded => Ok(None),
        Verdict::Open { case, below, point } => Ok(Some(Open {
            axis: axes.get(case as usize).copied(),
            below,
            point,
        })),
    }
}
