//! Refusals by rules 22 and 24.
use affine_rows::Point;
use kernel_ir::{Fault, Insn, Kernel, Refusal, Site};
use kernel_rules::{name_of, told, with_vars};
use std::alloc::{AllocError, Global};

/// Rule 22: the iname has no constant bound of this side.
pub(crate) fn not_constant(alloc: Global, kernel: &Kernel, iname: u32, side: &str) -> Fault {
    told(constant_refusal(alloc, kernel, iname, side))
}

fn constant_refusal(
    alloc: Global,
    kernel: &Kernel,
    iname: u32,
    side: &str,
) -> Result<Refusal, AllocError> {
    Refusal::of_rule(alloc, Site::Kernel, 22)
        .with_name(alloc, &name_of(alloc, kernel, iname)?)?
        .with_word(alloc, side)
}

/// Rule 24: the iname may be below 0 in the instruction.
pub(crate) fn negative(
    alloc: Global,
    kernel: &Kernel,
    insn: &Insn,
    iname: u32,
    vars: &[u32],
    point: Point,
) -> Fault {
    told(negative_refusal(alloc, kernel, insn, iname, vars, point))
}

fn negative_refusal(
    alloc: Global,
    kernel: &Kernel,
    insn: &Insn,
    iname: u32,
    vars: &[u32],
    point: Point,
) -> Result<Refusal, AllocError> {
    let refusal = Refusal::of_rule(alloc, Site::Kernel, 24)
        .at_line(insn.line)
        .with_name(alloc, &insn.id)?
        .with_name(alloc, &name_of(alloc, kernel, iname)?)?;
    Ok(with_vars(alloc, refusal, kernel, vars)?.with_point(point))
}
