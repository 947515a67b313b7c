//! Automatic dependences.
use affine_rows::{Listed, Name};
use expr_tree::Cell;
use kernel_ir::{Insn, copy_names};
use kernel_rules::{Access, plain_accesses, same_cell};
use std::alloc::{AllocError, Global};

/// The one instruction that stores to the array or temporary, if there is exactly one.
fn only_writer(insns: &[Insn], cell: Cell) -> Option<usize> {
    let mut found = None;
    for at in 0..insns.len() {
        if same_cell(insns[at].cell, cell) {
            if found.is_some() {
                return None;
            }
            found = Some(at);
        }
    }
    found
}

fn has_name(names: &[Name], name: &Name) -> bool {
    names
        .iter()
        .any(|other| name.as_bytes() == other.as_bytes())
}

/// Adds the id, unless it is there.
fn add_id(alloc: Global, id: &Name, deps: &mut Listed<Name>) -> Result<(), AllocError> {
    if !has_name(deps.as_slice(), id) {
        deps.push(id.copy(alloc)?)?;
    }
    Ok(())
}

/// Adds the id of the one writer of what is read, if it is another instruction than the reader at this place.
fn add_for_read(
    alloc: Global,
    insns: &[Insn],
    reader: usize,
    read: &Access,
    deps: &mut Listed<Name>,
) -> Result<(), AllocError> {
    match only_writer(insns, read.cell) {
        Some(writer) if writer != reader => match insns.get(writer) {
            None => Ok(()),
            Some(insn) => add_id(alloc, &insn.id, deps),
        },
        _ => Ok(()),
    }
}

/// Adds the automatic dependences of the instruction at a place in the order of its reads.
fn add_for_reads(
    alloc: Global,
    insns: &[Insn],
    reader: usize,
    accesses: &[Access],
    deps: &mut Listed<Name>,
) -> Result<(), AllocError> {
    for access in accesses {
        if !access.store {
            add_for_read(alloc, insns, reader, access, deps)?;
        }
    }
    Ok(())
}

/// The dependences of the instruction at a place: those that are written, then the automatic ones.
fn deps_of(
    alloc: Global,
    insns: &[Insn],
    at: usize,
    insn: &Insn,
) -> Result<Listed<Name>, AllocError> {
    let mut deps = copy_names(alloc, insn.deps.as_slice())?;
    if insn.auto {
        let accesses = plain_accesses(alloc, insn)?;
        add_for_reads(alloc, insns, at, accesses.as_slice(), &mut deps)?;
    }
    Ok(deps)
}

fn with_deps(alloc: Global, insn: &Insn, deps: Listed<Name>) -> Result<Insn, AllocError> {
    let copied = insn.copy(alloc)?;
    Ok(Insn { deps, ..copied })
}

/// The instructions with their automatic dependences, which come of the same ones with their uses of rules replaced.
pub(crate) fn insns_with_deps(
    alloc: Global,
    insns: &[Insn],
    plain: &[Insn],
) -> Result<Listed<Insn>, AllocError> {
    let mut made = Listed::new(alloc);
    for at in 0..insns.len().min(plain.len()) {
        let deps = deps_of(alloc, plain, at, &plain[at])?;
        made.push(with_deps(alloc, &insns[at], deps)?)?;
    }
    Ok(made)
}
