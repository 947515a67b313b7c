//! The variables of a system of two accesses.
use crate::access::Use;
use crate::frame::Frame;
use std::alloc::{AllocError, Global};

/// A number that is no variable's.
const NO_VARIABLE: u32 = u32::MAX;

/// The variables by their places: the parameters, the first access's axes with an iname and its loops, the same of the second
/// one, and the other axes of the first and of the second one. In the list of the one access a number that is no
/// variable's stands for each variable of the other.
#[derive(Drop)]
pub(crate) struct Both {
    pub first: Vec<u32>,
    pub second: Vec<u32>,
}

/// The variables of the axes on which the statement has an iname, or of those on which it has none.
fn axis_vars(
    alloc: Global,
    frame: &Frame<'_>,
    used: Use<'_>,
    tagged: bool,
) -> Result<Vec<u32>, AllocError> {
    let axes = used.statement.axes(alloc, tagged)?;
    let mut made = Vec::new(alloc);
    for axis in &axes {
        made.push(frame.axis(*axis))?;
    }
    Ok(made)
}

fn add_gaps(count: usize, made: &mut Vec<u32>) -> Result<(), AllocError> {
    for _ in 0..count {
        made.push(NO_VARIABLE)?;
    }
    Ok(())
}

/// The variables of both accesses.
pub(crate) fn vars_of(
    alloc: Global,
    frame: &Frame<'_>,
    one: Use<'_>,
    other: Use<'_>,
) -> Result<Both, AllocError> {
    let mut own = axis_vars(alloc, frame, one, true)?;
    own.extend_from_slice(one.access.there.loops.as_slice())?;
    let mut others = axis_vars(alloc, frame, other, true)?;
    others.extend_from_slice(other.access.there.loops.as_slice())?;
    let own_rest = axis_vars(alloc, frame, one, false)?;
    let other_rest = axis_vars(alloc, frame, other, false)?;
    let mut first = Vec::from_slice(alloc, frame.params)?;
    let mut second = Vec::from_slice(alloc, frame.params)?;
    first.extend_from_slice(&own)?;
    add_gaps(own.len(), &mut second)?;
    add_gaps(others.len(), &mut first)?;
    second.extend_from_slice(&others)?;
    first.extend_from_slice(&own_rest)?;
    add_gaps(own_rest.len(), &mut second)?;
    second.extend_from_slice(&other_rest)?;
    Ok(Both { first, second })
}
