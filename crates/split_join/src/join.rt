//! The joining of inames.
use crate::asked::{ask_distinct, ask_free, ask_untagged, inames_of};
use crate::changed::changed_kernel;
use crate::digits::{Fast, digits_of};
use crate::folds::folds_of;
use crate::placed::in_declared_order;
use crate::refused::{not_invertible, unknown};
use affine_rows::{Listed, Name};
use axis_rules::constant_extent;
use command_parts::check_new;
use kernel_edits::{Change, form_fault, numbered};
use kernel_ir::{Fault, Insn, Kernel};
use quasi_forms::is_among;
use script_reader::Command;
use std::alloc::{AllocError, Global};

/// The first of the joined inames that the list lacks, if it has another one.
fn lacked(joined: &[u32], inames: &[u32]) -> Option<u32> {
    if joined.iter().all(|iname| !is_among(inames, *iname)) {
        return None;
    }
    joined
        .iter()
        .find(|iname| !is_among(inames, **iname))
        .copied()
}

fn ask_list(
    alloc: Global,
    kernel: &Kernel,
    insn: &Insn,
    joined: &[u32],
    inames: &[u32],
) -> Result<(), Fault> {
    match lacked(joined, inames) {
        None => Ok(()),
        Some(iname) => Err(not_invertible(alloc, kernel, insn, iname)),
    }
}

/// Rule 26 refuses an instruction that has some of the joined inames and lacks another one, itself or in a reduction.
fn ask_insn(alloc: Global, kernel: &Kernel, insn: &Insn, joined: &[u32]) -> Result<(), Fault> {
    ask_list(alloc, kernel, insn, joined, insn.inames.as_slice())?;
    for own in folds_of(alloc, insn)?.as_slice() {
        ask_list(alloc, kernel, insn, joined, own.as_slice())?;
    }
    Ok(())
}

fn ask_insns(alloc: Global, kernel: &Kernel, joined: &[u32]) -> Result<(), Fault> {
    for insn in kernel.insns.as_slice() {
        ask_insn(alloc, kernel, insn, joined)?;
    }
    Ok(())
}

fn ask_all_untagged(alloc: Global, kernel: &Kernel, joined: &[u32]) -> Result<(), Fault> {
    for iname in joined {
        ask_untagged(alloc, kernel, *iname)?;
    }
    Ok(())
}

/// The fast inames with their bounds; rule 22 refuses the first one without.
fn fast_inames(alloc: Global, kernel: &Kernel, inames: &[u32]) -> Result<Listed<Fast>, Fault> {
    let mut made = Listed::new(alloc);
    for iname in inames {
        let bounds = constant_extent(alloc, kernel, *iname)?;
        made.push(Fast {
            iname: *iname,
            bounds,
        })?;
    }
    Ok(made)
}

/// The names with `_` between each two.
fn names_joined(alloc: Global, names: &[Name]) -> Result<Name, AllocError> {
    let mut text = String::new(alloc);
    for name in names {
        if !text.is_empty() {
            text.push_str("_")?;
        }
        text.push_str(name.as_str())?;
    }
    Ok(Name::new(text))
}

/// The name that is given, or the joined ones.
fn new_name(alloc: Global, given: &Name, names: &[Name]) -> Result<Name, AllocError> {
    if given.as_bytes().is_empty() {
        names_joined(alloc, names)
    } else {
        given.copy(alloc)
    }
}

/// The kernel with a new iname in the place of the first joined one, and without the fast ones.
fn joined_kernel(
    alloc: Global,
    kernel: &Kernel,
    name: &Name,
    first: u32,
    fast: &[Fast],
) -> Result<Kernel, Fault> {
    let mut names = kernel.names.copy(alloc)?;
    let new = numbered(alloc, &mut names, name)?;
    let digits = match digits_of(alloc, new, first, fast) {
        Ok(digits) => digits,
        Err(fault) => return Err(form_fault(alloc, fault)),
    };
    let placed = in_declared_order(alloc, kernel.inames.as_slice(), &digits)?;
    let change = Change {
        vars: &placed.vars,
        forms: &placed.forms,
        first,
        put: &[new],
    };
    let made = changed_kernel(alloc, kernel, &change, names, Listed::new(alloc))?;
    check_new(alloc, &made)?;
    Ok(made)
}

/// The kernel of which inames are joined: a new one stands for them, the last one varying fastest.
///
/// It is refused by rule 1 for a name of no iname, 21 for one on an axis, 2 for the new name and then for a repeated one, 26 where
/// an instruction or a reduction has one and lacks another, 22 for each but the first where a constant bound is missing, and then
/// by rule 3 where the new kernel passes a limit.
pub fn join_inames(alloc: Global, kernel: &Kernel, command: &Command) -> Result<Kernel, Fault> {
    let nothing = Name::from_str(alloc, "")?;
    let (given, names) = match command.names.as_slice() {
        [given, names @ ..] => (given, names),
        [] => return Err(unknown(alloc, &nothing)),
    };
    let joined = inames_of(alloc, kernel, names)?;
    ask_all_untagged(alloc, kernel, joined.as_slice())?;
    let name = new_name(alloc, given, names)?;
    ask_free(alloc, kernel, &name)?;
    ask_distinct(alloc, names)?;
    ask_insns(alloc, kernel, joined.as_slice())?;
    let (first, others) = match joined.as_slice() {
        [first, others @ ..] => (*first, others),
        [] => return Err(unknown(alloc, &nothing)),
    };
    let fast = fast_inames(alloc, kernel, others)?;
    joined_kernel(alloc, kernel, &name, first, fast.as_slice())
}
