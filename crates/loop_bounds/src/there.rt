//! What is known at a place of a code.
ghost use Rattle.std.specs.Prelude.{◌<◌};

use crate::axes::{AXES, axis_var, iname_on};
use crate::known::known_rows;
use crate::loops::LoopRows;
use affine_rows::{Listed, Row, Terms};
use kernel_ir::{Fault, Iname, Insn, Kernel};
use std::alloc::{AllocError, Global};

/// A place in a code: the loops round it, the outer ones first, and rows that hold there beside the context. Rows are over
/// parameters, the variables of axes, and the loops.
#[derive(Drop)]
pub struct There {
    pub loops: Listed<u32>,
    pub known: Listed<Row>,
}

/// The constant and the multiple of a variable are at least 0.
fn bound_row(alloc: Global, constant: i64, var: u32, by: i64) -> Result<Row, AllocError> {
    Ok(Row {
        constant,
        terms: Terms::from_slice(alloc, &[(var, by)])?,
        equal: false,
    })
}

/// Adds the rows of a local axis of so many items.
fn add_local(
    axis: u8,
    items: u32,
    alloc: Global,
    made: &mut Listed<Row>,
) -> Result<(), AllocError> {
    made.push(bound_row(alloc, 0, axis_var(axis), 1)?)?;
    made.push(bound_row(alloc, i64::from(items) - 1, axis_var(axis), -1)?)
}

/// The place outside all loops: group axes are at least 0, local axes from 0 to their items less 1.
pub fn at_top(alloc: Global, items: [u32; 3]) -> Result<There, AllocError> {
    let mut known = Listed::new(alloc);
    for axis in 0..3u8 {
        known.push(bound_row(alloc, 0, axis_var(axis), 1)?)?;
    }
    for axis in 0..3u8 {
        add_local(axis + 3, items[axis as usize], alloc, &mut known)?;
    }
    Ok(There {
        loops: Listed::new(alloc),
        known,
    })
}

/// Loops with one more inside them.
pub fn with_loop(alloc: Global, loops: &[u32], var: u32) -> Result<Listed<u32>, AllocError> {
    let mut made = Listed::from_slice(alloc, loops)?;
    made.push(var)?;
    Ok(made)
}

/// The place inside a loop over an iname, with what is known outside.
pub(crate) fn within(alloc: Global, there: &There, var: u32) -> Result<There, AllocError> {
    let mut known = Listed::new(alloc);
    for row in there.known.as_slice() {
        known.push(row.copy(alloc)?)?;
    }
    Ok(There {
        loops: with_loop(alloc, there.loops.as_slice(), var)?,
        known,
    })
}

/// The place inside a loop over an iname: also known is each row of a side that for every instruction of the loop the rows
/// known outside and its rows of that side imply.
pub fn inside(
    alloc: Global,
    kernel: &Kernel,
    there: &There,
    var: u32,
    rows: &LoopRows,
) -> Result<There, Fault> {
    let mut made = within(alloc, there, var)?;
    let lower = known_rows(alloc, kernel, &made, rows.lower.as_slice())?;
    let upper = known_rows(alloc, kernel, &made, rows.upper.as_slice())?;
    for row in lower.into_vec() {
        made.known.push(row)?;
    }
    for row in upper.into_vec() {
        made.known.push(row)?;
    }
    Ok(made)
}

fn add_loops(inames: &[Iname], loops: &[u32], made: &mut Listed<u32>) -> Result<(), AllocError> {
    for iname in inames {
        if loops.contains(&iname.var) {
            made.push(iname.var)?;
        }
    }
    Ok(())
}

/// The variables at a place in order: parameters, axes, and the loops in declared order.
pub(crate) fn scope(
    alloc: Global,
    kernel: &Kernel,
    there: &There,
) -> Result<Listed<u32>, AllocError> {
    let mut made = Listed::from_slice(alloc, kernel.params.as_slice())?;
    for axis in 0..6u8 {
        made.push(axis_var(axis))?;
    }
    add_loops(kernel.inames.as_slice(), there.loops.as_slice(), &mut made)?;
    Ok(made)
}

/// The variable of an instruction on an axis.
fn own_var(kernel: &Kernel, insn: &Insn, axis: u8) -> u32
    requires { axis < 6 }
{
    match iname_on(kernel, insn, AXES[axis as usize]) {
        Some(var) => var,
        None => axis_var(axis),
    }
}

/// The same, with the instruction's inames in the places of their axes.
pub(crate) fn scope_of_insn(
    alloc: Global,
    kernel: &Kernel,
    there: &There,
    insn: &Insn,
) -> Result<Listed<u32>, AllocError> {
    let mut made = Listed::from_slice(alloc, kernel.params.as_slice())?;
    for axis in 0..6u8 {
        made.push(own_var(kernel, insn, axis))?;
    }
    add_loops(kernel.inames.as_slice(), there.loops.as_slice(), &mut made)?;
    Ok(made)
}
