//! The rows that bound loops and launch numbers.
use crate::axes::{iname_on, tag_of};
use crate::bounding::{BothSides, bound_rows};
use crate::placed::number_to;
use crate::there::{There, within};
use crate::thinning::chosen_rows;
use affine_rows::{Listed, Row};
use kernel_ir::{Fault, Insn, Kernel, Tag};
use std::alloc::{AllocError, Global};

/// The chosen rows that an instruction, by its place, gives on one side of an iname.
#[derive(Drop)]
pub struct InsnRows {
    pub insn: u32,
    pub rows: Listed<Row>,
}

/// The chosen rows that bound a loop, of each of its instructions in order.
#[derive(Drop)]
pub struct LoopRows {
    pub lower: Listed<InsnRows>,
    pub upper: Listed<InsnRows>,
}

fn is_on_group_axis(kernel: &Kernel, var: u32) -> bool {
    matches!(tag_of(kernel, var), Tag::Group(_))
}

/// The outer loops, and the instruction's inames on group axes.
fn kept_inames(
    alloc: Global,
    kernel: &Kernel,
    insn: &Insn,
    loops: &[u32],
) -> Result<Listed<u32>, AllocError> {
    let mut kept = Listed::from_slice(alloc, loops)?;
    for var in insn.inames.as_slice() {
        if is_on_group_axis(kernel, *var) {
            kept.push(*var)?;
        }
    }
    Ok(kept)
}

/// The chosen rows of both sides that an instruction gives for a loop inside others.
fn chosen_sides(
    alloc: Global,
    kernel: &Kernel,
    insn: &Insn,
    outside: &There,
    inner: &There,
    var: u32,
) -> Result<BothSides, Fault> {
    let kept = kept_inames(alloc, kernel, insn, outside.loops.as_slice())?;
    let rows = bound_rows(alloc, kernel, insn, var, kept.as_slice())?;
    let lower = chosen_rows(alloc, kernel, inner, rows.lower.as_slice())?;
    let upper = chosen_rows(alloc, kernel, inner, rows.upper.as_slice())?;
    Ok(BothSides { lower, upper })
}

/// Adds the rows of an instruction.
fn add_sides(insn: u32, sides: BothSides, made: &mut LoopRows) -> Result<(), AllocError> {
    let BothSides { lower, upper } = sides;
    made.lower.push(InsnRows { insn, rows: lower })?;
    made.upper.push(InsnRows { insn, rows: upper })
}

/// The rows that bound the loop over an iname at a place: of each instruction that has the iname, the rows that bound it
/// where all inames are cancelled but the loops round it and those on group axes, without those that are implied.
pub fn loop_rows(
    alloc: Global,
    kernel: &Kernel,
    there: &There,
    var: u32,
) -> Result<LoopRows, Fault> {
    let inner = within(alloc, there, var)?;
    let mut made = LoopRows {
        lower: Listed::new(alloc),
        upper: Listed::new(alloc),
    };
    let insns = kernel.insns.as_slice();
    for at in 0..insns.len() {
        if insns[at].inames.as_slice().contains(&var) {
            let sides = chosen_sides(alloc, kernel, &insns[at], there, &inner, var)?;
            add_sides(number_to(at), sides, &mut made)?;
        }
    }
    Ok(made)
}

/// The upper rows of an iname on a group axis, over parameters alone.
fn upper_rows(
    alloc: Global,
    kernel: &Kernel,
    there: &There,
    insn: &Insn,
    var: u32,
) -> Result<Listed<Row>, Fault> {
    let rows = bound_rows(alloc, kernel, insn, var, &[])?;
    chosen_rows(alloc, kernel, there, rows.upper.as_slice())
}

/// The rows that bound a group axis from above: of each instruction with an iname on it, those
/// over parameters alone that are not implied.
pub fn group_rows(
    alloc: Global,
    kernel: &Kernel,
    there: &There,
    axis: Tag,
) -> Result<Listed<InsnRows>, Fault> {
    let mut made = Listed::new(alloc);
    let insns = kernel.insns.as_slice();
    for at in 0..insns.len() {
        if let Some(var) = iname_on(kernel, &insns[at], axis) {
            let rows = upper_rows(alloc, kernel, there, &insns[at], var)?;
            made.push(InsnRows {
                insn: number_to(at),
                rows,
            })?;
        }
    }
    Ok(made)
}
