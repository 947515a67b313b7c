//! The pairs of accesses that are asked whether they meet.
use crate::access::{Access, Statement, Use};
use crate::frame::Frame;
use expr_tree::Cell;
use quasi_forms::is_among;
use std::alloc::AllocError;

/// Which items are asked: those of two groups, or two of one group.
#[derive(Clone, Copy, Debug, PartialEq, Eq)]
pub enum Apart {
    Groups,
    Items,
}

/// At which turns two accesses are asked: at any of all loops; at the same turn of each loop round both; or the first at an
/// earlier turn of this loop than the second, at the same turn of each loop round it.
#[derive(Clone, Copy, Debug, PartialEq, Eq)]
pub enum Turns {
    Any,
    Same,
    Earlier(u32),
}

impl Turns {
    /// Whether the items may be at different turns of the loop, and so of all loops inside it.
    pub(crate) fn are_free_in(self, var: u32) -> bool {
        match self {
            Turns::Any => true,
            Turns::Same => false,
            Turns::Earlier(other) => other == var,
        }
    }
}

/// Whether two different items, at such turns, can come to one cell by the two accesses.
#[derive(Clone, Copy)]
pub struct Question<'a> {
    pub apart: Apart,
    pub turns: Turns,
    pub first: Use<'a>,
    pub second: Use<'a>,
}

/// Whether items that are so apart share the cell: argument arrays all, local cells those of one group.
fn is_common(frame: &Frame<'_>, apart: Apart, cell: Cell) -> bool {
    match cell {
        Cell::Array(_) => true,
        Cell::Temp(number) => apart == Apart::Items && (number as usize) < frame.locals,
    }
}

/// Whether the access stands in the loop of whose turns is asked. The reads of a data test round a loop do not.
fn is_within(turns: Turns, access: &Access) -> bool {
    match turns {
        Turns::Any | Turns::Same => true,
        Turns::Earlier(var) => is_among(access.there.loops.as_slice(), var),
    }
}

/// Whether two accesses are of one cell that such items share, one of them is a store, and both stand in the loop.
fn is_pair(frame: &Frame<'_>, apart: Apart, turns: Turns, first: &Access, second: &Access) -> bool {
    first.cell == second.cell
        && (first.store || second.store)
        && is_common(frame, apart, first.cell)
        && is_within(turns, first)
        && is_within(turns, second)
}

/// Adds the questions of an access with each of these of a statement.
fn add_with<'a>(
    frame: &Frame<'_>,
    apart: Apart,
    turns: Turns,
    first: Use<'a>,
    statement: &'a Statement,
    accesses: &'a [Access],
    made: &mut Vec<Question<'a>>,
) -> Result<(), AllocError> {
    for access in accesses {
        if is_pair(frame, apart, turns, first.access, access) {
            made.push(Question {
                apart,
                turns,
                first,
                second: Use { statement, access },
            })?;
        }
    }
    Ok(())
}

/// Adds the questions of each access of the first statement with each of the second.
pub fn add_between<'a>(
    frame: &Frame<'_>,
    apart: Apart,
    turns: Turns,
    first: &'a Statement,
    second: &'a Statement,
    made: &mut Vec<Question<'a>>,
) -> Result<(), AllocError> {
    for access in first.accesses.as_slice() {
        let one = Use {
            statement: first,
            access,
        };
        add_with(
            frame,
            apart,
            turns,
            one,
            second,
            second.accesses.as_slice(),
            made,
        )?;
    }
    Ok(())
}

/// Adds the questions of each access of the statement with itself and each later one.
pub fn add_within<'a>(
    frame: &Frame<'_>,
    apart: Apart,
    turns: Turns,
    statement: &'a Statement,
    made: &mut Vec<Question<'a>>,
) -> Result<(), AllocError> {
    let accesses = statement.accesses.as_slice();
    for at in 0..accesses.len() {
        let one = Use {
            statement,
            access: &accesses[at],
        };
        add_with(frame, apart, turns, one, statement, &accesses[at..], made)?;
    }
    Ok(())
}
