//! One reduction realized.
use crate::insns::Realized;
use crate::naming::chosen_for;
use crate::taking::{Reduction, Rest, rest_of};
use affine_rows::{Listed, Name, Names};
use expr_tree::{Cell, Expr, ExprFault, Node};
use kernel_edits::{Kinds, expr_fault, leads_of_rules, number_at, tree_of};
use kernel_ir::{Fault, Insn, Kernel, Temp};
use std::alloc::{AllocError, Global};
use wrap_words::Kind;

/// The read of the accumulator, a temporary without places.
fn read_of(alloc: Global, cell: Cell) -> Result<Expr, ExprFault> {
    tree_of(alloc, Node::Read(cell, Listed::new(alloc)))
}

/// What is left of the instruction with the read of the accumulator in the place of its first reduction.
fn rest_with(alloc: Global, kernel: &Kernel, insn: &Insn, cell: Cell) -> Result<Rest, ExprFault> {
    let leads = leads_of_rules(alloc, kernel)?;
    let kinds = Kinds {
        kernel,
        leads: &leads,
    };
    let put = read_of(alloc, cell)?;
    rest_of(alloc, kinds, insn, &put)
}

/// The accumulator: a scalar temporary.
fn accumulator(alloc: Global, name: Name, kind: Kind) -> Temp {
    Temp {
        name,
        kind: Some(kind),
        shape: Listed::new(alloc),
        local: false,
    }
}

/// The names with one more.
fn named(alloc: Global, names: &Names, name: &Name) -> Result<Names, AllocError> {
    let mut made = names.copy(alloc)?;
    made.insert(name.copy(alloc)?)?;
    Ok(made)
}

/// The temporaries with one more.
fn with_last(alloc: Global, temps: &[Temp], last: Temp) -> Result<Listed<Temp>, AllocError> {
    let mut made = Listed::new(alloc);
    for temp in temps {
        made.push(temp.copy(alloc)?)?;
    }
    made.push(last)?;
    Ok(made)
}

/// The kernel with these instructions and with the accumulator as its last temporary and its last name.
fn with_temp(
    alloc: Global,
    kernel: &Kernel,
    insns: Listed<Insn>,
    temp: Temp,
) -> Result<Kernel, Fault> {
    let names = named(alloc, &kernel.names, &temp.name)?;
    let temps = with_last(alloc, kernel.temps.as_slice(), temp)?;
    let copied = kernel.copy(alloc)?;
    Ok(Kernel {
        names,
        temps,
        insns,
        ..copied
    })
}

/// The instructions in which a reduction is realized.
fn insns_of(alloc: Global, realized: &Realized<'_>) -> Result<Listed<Insn>, Fault> {
    match realized.insns(alloc) {
        Ok(insns) => Ok(insns),
        Err(fault) => Err(expr_fault(alloc, fault)),
    }
}

/// The kernel in which the reduction that was taken from an instruction is realized.
fn realized(
    alloc: Global,
    kernel: &Kernel,
    insn: &Insn,
    found: &Reduction,
    rest: &Rest,
    cell: Cell,
) -> Result<Kernel, Fault> {
    let chosen = chosen_for(alloc, kernel, &insn.id)?;
    let realized = Realized {
        kernel,
        insn,
        found,
        rest,
        cell,
        chosen: &chosen,
    };
    let insns = insns_of(alloc, &realized)?;
    let name = chosen.temp.copy(alloc)?;
    with_temp(alloc, kernel, insns, accumulator(alloc, name, found.kind))
}

/// The kernel in which the outermost, leftmost reduction of an instruction of it is realized, or none where it has no reduction.
pub(crate) fn realized_once(
    alloc: Global,
    kernel: &Kernel,
    insn: &Insn,
) -> Result<Option<Kernel>, Fault> {
    let cell = Cell::Temp(number_at(alloc, kernel.temps.len())?);
    let rest = match rest_with(alloc, kernel, insn, cell) {
        Ok(rest) => rest,
        Err(fault) => return Err(expr_fault(alloc, fault)),
    };
    match &rest.taken {
        None => Ok(None),
        Some(found) => Ok(Some(realized(alloc, kernel, insn, found, &rest, cell)?)),
    }
}
