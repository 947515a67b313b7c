//! Rule 26: which instance of the writer a read asks for.
use crate::store::Store;
use affine_rows::{Form, Listed, Name};
use command_parts::cells_of_insn;
use kernel_edits::{all_differ, refused};
use kernel_ir::{Fault, Iname, Insn, Refusal, Site};
use quasi_forms::is_among;
use std::alloc::{AllocError, Global};

/// How the writer's instance follows from a read: the inames that are subscripts of the store, the writer's other inames, and the
/// places of the instructions that read.
#[derive(Drop)]
pub(crate) struct Scatter {
    pub(crate) subscripts: Listed<u32>,
    pub(crate) remaining: Listed<u32>,
    pub(crate) readers: Vec<usize>,
}

/// The variable that a form is, if it is one.
fn variable_of(form: &Form) -> Option<u32> {
    let quasi = form.quasi();
    if quasi.constant != 0 || !quasi.floors.is_empty() {
        return None;
    }
    match quasi.terms.as_slice() {
        [term] => { if term.1 == 1 { Some(term.0) } else { None } }
        _ => None,
    }
}

fn is_iname(inames: &[Iname], var: u32) -> bool {
    inames.iter().any(|iname| iname.var == var)
}

/// The inames that the subscripts are, if these are inames.
fn inames_of(
    alloc: Global,
    inames: &[Iname],
    place: &[Form],
) -> Result<Option<Listed<u32>>, AllocError> {
    let mut made = Listed::new(alloc);
    for form in place {
        match variable_of(form) {
            Some(var) if is_iname(inames, var) => made.push(var)?,
            _ => return Ok(None),
        }
    }
    Ok(Some(made))
}

/// The inames that the subscripts are, if these are distinct inames.
fn subscripts_of(alloc: Global, store: &Store<'_>) -> Result<Option<Listed<u32>>, AllocError> {
    let inames = store.kernel.inames.as_slice();
    match inames_of(alloc, inames, store.insn.place.as_slice())? {
        Some(vars) if all_differ(vars.as_slice()) => Ok(Some(vars)),
        _ => Ok(None),
    }
}

/// The inames of the writer that are no subscript.
fn remaining_of(
    alloc: Global,
    writer: &Insn,
    subscripts: &[u32],
) -> Result<Listed<u32>, AllocError> {
    let mut made = Listed::new(alloc);
    for iname in writer.inames.as_slice() {
        if !is_among(subscripts, *iname) {
            made.push(*iname)?;
        }
    }
    Ok(made)
}

/// The places of the instructions other than the writer that use the temporary.
fn readers_of(alloc: Global, store: &Store<'_>) -> Result<Vec<usize>, AllocError> {
    let mut made = Vec::new(alloc);
    let insns = store.kernel.insns.as_slice();
    for at in 0..insns.len() {
        if at != store.at && cells_of_insn(alloc, store.kernel, &insns[at])?.has(store.cell()) {
            made.push(at)?;
        }
    }
    Ok(made)
}

fn not_invertible(alloc: Global, writer: &Name, what: &str) -> Result<Refusal, AllocError> {
    Refusal::of_rule(alloc, Site::Script, 26)
        .with_name(alloc, writer)?
        .with_word(alloc, what)
}

fn has_all(insn: &Insn, inames: &[u32]) -> bool {
    inames
        .iter()
        .all(|iname| is_among(insn.inames.as_slice(), *iname))
}

/// Rule 26: a reader lacks a remaining iname.
fn check_readers(alloc: Global, store: &Store<'_>, scatter: &Scatter) -> Result<(), Fault> {
    for reader in &scatter.readers {
        if let Some(insn) = store.kernel.insns.get(*reader) {
            if !has_all(insn, scatter.remaining.as_slice()) {
                return Err(refused(not_invertible(alloc, &store.insn.id, insn.id.as_str())));
            }
        }
    }
    Ok(())
}

/// How the writer's instance follows from a read. Rule 26 refuses where the subscripts of the store are not distinct inames, or else
/// a reader lacks a remaining iname.
pub(crate) fn scatter_of(alloc: Global, store: &Store<'_>) -> Result<Scatter, Fault> {
    let Some(subscripts) = subscripts_of(alloc, store)? else {
        return Err(refused(not_invertible(alloc, &store.insn.id, "-")));
    };
    let remaining = remaining_of(alloc, store.insn, subscripts.as_slice())?;
    let scatter = Scatter {
        subscripts,
        remaining,
        readers: readers_of(alloc, store)?,
    };
    check_readers(alloc, store, &scatter)?;
    Ok(scatter)
}
