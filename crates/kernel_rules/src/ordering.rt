//! Refusals of two accesses of one cell whose instances may meet unordered.
use crate::access::Access;
use crate::differing::shared_inames;
use crate::faults::set_fault;
use crate::pairs::{Use, pair_of, vars_of_both};
use crate::telling::{name_of, name_of_cell, told, with_primed, with_vars};
use affine_rows::{Listed, Point};
use kernel_ir::{Fault, Kernel, Refusal, Site};
use set_query::{Differ, Verdict, excluded};
use std::alloc::{AllocError, Global};

/// Which case of two accesses is open.
#[derive(Clone, Copy)]
enum Case {
    /// The inames need not differ.
    Any,
    /// The iname of the first instance is less.
    Below(u32),
    /// The iname of the first instance is greater.
    Above(u32),
}

/// The open case, as its place in the list of inames that are to differ and its side.
fn case_of(differ: &Differ, inames: &[u32], case: u32, below: bool) -> Case {
    match (differ, inames.get(case as usize)) {
        (Differ::Among(_), Some(iname)) => {
            if below {
                Case::Below(*iname)
            } else {
                Case::Above(*iname)
            }
        }
        _ => Case::Any,
    }
}

fn with_case(
    alloc: Global,
    refusal: Refusal,
    kernel: &Kernel,
    case: Case,
) -> Result<Refusal, AllocError> {
    match case {
        Case::Any => refusal.with_word(alloc, "any"),
        Case::Below(var) => refusal
            .with_name(alloc, &name_of(alloc, kernel, var)?)?
            .with_word(alloc, "below"),
        Case::Above(var) => refusal
            .with_name(alloc, &name_of(alloc, kernel, var)?)?
            .with_word(alloc, "above"),
    }
}

/// The refusal by a rule of two accesses, at the line of the first one's instruction.
fn unordered_cells(
    alloc: Global,
    rule: u8,
    kernel: &Kernel,
    first: Use<'_>,
    second: Use<'_>,
    case: Case,
    point: Point,
) -> Result<Refusal, AllocError> {
    let refusal = Refusal::of_rule(alloc, Site::Kernel, rule)
        .at_line(first.insn.line)
        .with_name(alloc, &first.insn.id)?
        .with_name(alloc, &name_of_cell(alloc, kernel, first.access.cell)?)?
        .with_name(alloc, &second.insn.id)?
        .with_name(alloc, &name_of_cell(alloc, kernel, second.access.cell)?)?;
    let refusal = with_case(alloc, refusal, kernel, case)?;
    let vars = vars_of_both(
        alloc,
        kernel,
        first.insn,
        first.access.folds.as_slice(),
        second.insn,
        second.access.folds.as_slice(),
    )?;
    let refusal = with_vars(alloc, refusal, kernel, &vars.first)?;
    let own = vars.second.get(vars.first.len()..).unwrap_or(&[]);
    Ok(with_primed(alloc, refusal, kernel, own)?.with_point(point))
}

/// Refuses by the rule of this number the first case in which instances of two accesses of one array or temporary may touch
/// one cell while neither is directly before the other, or, with `one_way`, while the first is not directly before the
/// second; by rules 18 and 19 where a query passes a limit. The kernel uses no rules, and its instructions have these
/// accesses.
pub fn check_order(
    alloc: Global,
    rule: u8,
    plain: &Kernel,
    accesses: &[Listed<Access>],
    first: Use<'_>,
    second: Use<'_>,
    one_way: bool,
) -> Result<(), Fault> {
    let pair = pair_of(alloc, plain, accesses, first, second, one_way)?;
    match excluded(alloc, &pair) {
        Ok(Verdict::Excluded) => Ok(()),
        Ok(Verdict::Open { case, below, point }) => {
            let inames = shared_inames(alloc, plain, first, second.insn)?;
            let case = case_of(&pair.differ, &inames, case, below);
            Err(told(unordered_cells(alloc, rule, plain, first, second, case, point)))
        }
        Err(fault) => Err(set_fault(alloc, fault)),
    }
}
