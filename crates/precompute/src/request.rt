//! What a command asks for, and what its fill is made of.
use crate::parts::base_of;
use crate::reads::use_at;
use crate::uses::{Source, Used};
use affine_rows::{Form, Listed, Name};
use command_parts::{Cells, cells_of_value};
use kernel_edits::expr_fault;
use kernel_ir::{Fault, Insn, Kernel, Tag};
use quasi_forms::{is_among, mentions_one};
use std::alloc::{AllocError, Global};

/// What a command asks for: the name of what is stored, the swept inames, and whether the temporary is local; with all uses, and the
/// first of them.
#[derive(Clone, Copy)]
pub(crate) struct Request<'a> {
    pub(crate) kernel: &'a Kernel,
    pub(crate) name: &'a Name,
    pub(crate) source: Source,
    pub(crate) swept: &'a [u32],
    pub(crate) is_local: bool,
    pub(crate) uses: &'a [Used],
    pub(crate) first: &'a Used,
}

/// The id of the instruction at a place, empty where there is none.
pub(crate) fn id_at(kernel: &Kernel, at: usize) -> &str {
    match kernel.insns.get(at) {
        None => "",
        Some(insn) => insn.id.as_str(),
    }
}

/// What a fill is made of: the places of the instructions that use it, the inames that it keeps, the bases of its places, and what it
/// reads.
#[derive(Drop)]
pub(crate) struct Plan {
    pub(crate) users: Vec<usize>,
    pub(crate) kept: Listed<u32>,
    pub(crate) bases: Listed<Form>,
    pub(crate) cells: Cells,
}

/// The places of the instructions that have uses, each once.
fn users_of(alloc: Global, uses: &[Used]) -> Result<Vec<usize>, AllocError> {
    let mut users = Vec::new(alloc);
    for used in uses {
        if !users.contains(&used.at) {
            users.push(used.at)?;
        }
    }
    Ok(users)
}

fn bases_of(alloc: Global, place: &[Form], swept: &[u32]) -> Result<Listed<Form>, AllocError> {
    let mut made = Listed::new(alloc);
    for form in place {
        made.push(base_of(alloc, form, swept)?)?;
    }
    Ok(made)
}

fn one_mentions(forms: &[Form], var: u32) -> bool {
    forms.iter().any(|form| mentions_one(&[var], form.quasi()))
}

fn has_iname(insn: Option<&Insn>, var: u32) -> bool {
    match insn {
        None => false,
        Some(insn) => is_among(insn.inames.as_slice(), var),
    }
}

fn all_have(kernel: &Kernel, users: &[usize], var: u32) -> bool {
    users.iter().all(|at| has_iname(kernel.insns.get(*at), var))
}

/// The inames that a fill keeps: those of the bases, and those on no axis and not swept that all users have.
fn kept_inames(
    alloc: Global,
    request: Request<'_>,
    users: &[usize],
    bases: &[Form],
) -> Result<Listed<u32>, AllocError> {
    let mut kept = Listed::new(alloc);
    for iname in request.kernel.inames.as_slice() {
        let is_free = iname.tag == Tag::Plain && !is_among(request.swept, iname.var);
        if one_mentions(bases, iname.var)
            || (is_free && all_have(request.kernel, users, iname.var))
        {
            kept.push(iname.var)?;
        }
    }
    Ok(kept)
}

/// What a use reads, with uses of rules replaced.
fn cells_of(alloc: Global, request: Request<'_>) -> Result<Cells, Fault> {
    match use_at(alloc, request.source, &[]) {
        Ok(value) => Ok(cells_of_value(alloc, request.kernel, &value)?),
        Err(fault) => Err(expr_fault(alloc, fault)),
    }
}

/// What the fill of a command is made of. The bases of all uses are those of the first.
pub(crate) fn plan_of(alloc: Global, request: Request<'_>) -> Result<Plan, Fault> {
    let users = users_of(alloc, request.uses)?;
    let bases = bases_of(alloc, request.first.place.as_slice(), request.swept)?;
    let kept = kept_inames(alloc, request, &users, bases.as_slice())?;
    let cells = cells_of(alloc, request)?;
    Ok(Plan {
        users,
        kept,
        bases,
        cells,
    })
}
