//! What refusals by rules 14, 16 and 17 keep.
use affine_rows::Point;
use kernel_ir::{Fault, Insn, Kernel, Refusal, Site};
use kernel_rules::{Use, name_of, name_of_cell, told, with_vars};
use std::alloc::{AllocError, Global};

/// On which side a number passes its bound.
#[derive(Clone, Copy)]
pub(crate) enum Side {
    Below,
    Above,
}

impl Side {
    fn word(self) -> &'static str {
        match self {
            Side::Below => "below",
            Side::Above => "above",
        }
    }
}

fn unbounded_refusal(
    alloc: Global,
    kernel: &Kernel,
    insn: &Insn,
    iname: u32,
    side: &str,
) -> Result<Refusal, AllocError> {
    Refusal::of_rule(alloc, Site::Kernel, 17)
        .at_line(insn.line)
        .with_name(alloc, &insn.id)?
        .with_name(alloc, &name_of(alloc, kernel, iname)?)?
        .with_word(alloc, side)
}

/// Rule 17: the iname has no bound of this side, `lower` or `upper`.
pub(crate) fn unbounded(
    alloc: Global,
    kernel: &Kernel,
    insn: &Insn,
    iname: u32,
    side: &str,
) -> Fault {
    told(unbounded_refusal(alloc, kernel, insn, iname, side))
}

fn index_refusal(
    alloc: Global,
    kernel: &Kernel,
    insn: &Insn,
    iname: u32,
    side: Side,
    vars: &[u32],
    point: Point,
) -> Result<Refusal, AllocError> {
    let refusal = Refusal::of_rule(alloc, Site::Kernel, 16)
        .at_line(insn.line)
        .with_name(alloc, &insn.id)?
        .with_name(alloc, &name_of(alloc, kernel, iname)?)?
        .with_word(alloc, side.word())?;
    Ok(with_vars(alloc, refusal, kernel, vars)?.with_point(point))
}

/// Rule 16: at the point of these variables, the iname passes the range of inames on that side.
pub(crate) fn index_range(
    alloc: Global,
    kernel: &Kernel,
    insn: &Insn,
    iname: u32,
    side: Side,
    vars: &[u32],
    point: Point,
) -> Fault {
    told(index_refusal(alloc, kernel, insn, iname, side, vars, point))
}

fn bounds_refusal(
    alloc: Global,
    kernel: &Kernel,
    used: Use<'_>,
    place: usize,
    side: Side,
    vars: &[u32],
    point: Point,
) -> Result<Refusal, AllocError> {
    let refusal = Refusal::of_rule(alloc, Site::Kernel, 14)
        .at_line(used.insn.line)
        .with_name(alloc, &used.insn.id)?
        .with_name(alloc, &name_of_cell(alloc, kernel, used.access.cell)?)?
        .with_number(place as i128)?
        .with_word(alloc, side.word())?;
    Ok(with_vars(alloc, refusal, kernel, vars)?.with_point(point))
}

/// Rule 14: at the point of these variables, the subscript of this place, from 0, is outside its extent on that side.
pub(crate) fn out_of_bounds(
    alloc: Global,
    kernel: &Kernel,
    used: Use<'_>,
    place: usize,
    side: Side,
    vars: &[u32],
    point: Point,
) -> Fault {
    told(bounds_refusal(alloc, kernel, used, place, side, vars, point))
}
