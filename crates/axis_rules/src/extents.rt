//! Constant bounds of inames.
use crate::refused::not_constant;
use kernel_ir::{Fault, Insn, Kernel};
use kernel_rules::{Repeated, add_rows, built, repeated_inames, rows_of_insn, set_fault};
use quasi_forms::place_in;
use set_query::{Hull, hull};
use std::alloc::Global;

/// The least and the greatest number between which an iname is. The greatest one may be below the least one: then no
/// instruction has the iname at any number.
#[derive(Clone, Copy, Debug, PartialEq, Eq)]
pub struct Extent {
    pub least: i64,
    pub greatest: i64,
}

/// The ends of an iname of an instruction or of one of its reductions: by the instruction's rows, those of the reductions up to
/// its own, and the assumptions, with all other variables cancelled.
fn hull_in(alloc: Global, kernel: &Kernel, insn: &Insn, own: &Repeated) -> Result<Hull, Fault> {
    let mut asked = rows_of_insn(alloc, kernel, insn, own.folds.as_slice(), false)?;
    add_rows(
        alloc,
        kernel.assumptions.as_slice(),
        &asked.vars,
        &mut asked.rows,
    )?;
    let system = built(alloc, &asked)?;
    let place = place_in(&asked.vars, own.iname);
    match hull(alloc, std::slice::from_ref(&system), place) {
        Ok(hull) => Ok(hull),
        Err(fault) => Err(set_fault(alloc, fault)),
    }
}

/// The lesser of two lower ends, and none where one has none.
fn lesser(one: Option<i64>, other: Option<i64>) -> Option<i64> {
    Some(one?.min(other?))
}

/// The greater of two upper ends, and none where one has none.
fn greater(one: Option<i64>, other: Option<i64>) -> Option<i64> {
    Some(one?.max(other?))
}

/// The ends so far, if there are any, with further ones.
fn joined(found: Option<Hull>, more: Hull) -> Hull {
    match found {
        None => more,
        Some(found) => Hull {
            lower: lesser(found.lower, more.lower),
            upper: greater(found.upper, more.upper),
        },
    }
}

/// The ends of an iname so far with those in a further instruction.
fn with_insn(
    alloc: Global,
    kernel: &Kernel,
    insn: &Insn,
    iname: u32,
    found: Option<Hull>,
) -> Result<Option<Hull>, Fault> {
    let mut ends = found;
    for own in &repeated_inames(alloc, kernel, insn)? {
        if own.iname == iname {
            ends = Some(joined(ends, hull_in(alloc, kernel, insn, own)?));
        }
    }
    Ok(ends)
}

/// The numbers between which an iname is in all instructions that have it, as their own iname or in a reduction, by their rows
/// and the assumptions with all other variables cancelled. An end is none where one of them has no constant bound of that side,
/// or none has the iname.
pub fn constant_hull(alloc: Global, kernel: &Kernel, iname: u32) -> Result<Hull, Fault> {
    let mut found = None;
    for insn in kernel.insns.as_slice() {
        found = with_insn(alloc, kernel, insn, iname, found)?;
    }
    Ok(found.unwrap_or(Hull {
        lower: None,
        upper: None,
    }))
}

/// The numbers of `constant_hull`. Rule 22 refuses an iname without a constant lower bound, or else one without an upper bound.
pub fn constant_extent(alloc: Global, kernel: &Kernel, iname: u32) -> Result<Extent, Fault> {
    let hull = constant_hull(alloc, kernel, iname)?;
    let Some(least) = hull.lower else {
        return Err(not_constant(alloc, kernel, iname, "lower"));
    };
    let Some(greatest) = hull.upper else {
        return Err(not_constant(alloc, kernel, iname, "upper"));
    };
    Ok(Extent { least, greatest })
}
