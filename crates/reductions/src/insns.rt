//! The instructions of a kernel in which a reduction is realized.
use crate::naming::Chosen;
use crate::neutral::neutral;
use crate::taking::{Reduction, Rest};
use affine_rows::{Listed, Name};
use expr_tree::{Cell, Expr, ExprFault, Op, Test};
use kernel_ir::{Insn, Kernel, Storing, copy_names, copy_test};
use quasi_forms::is_among;
use std::alloc::{AllocError, Global};

/// The instruction with another id, which stores a value to a cell without places and has no data test.
fn stored(
    alloc: Global,
    insn: &Insn,
    id: Name,
    cell: Cell,
    value: Expr,
) -> Result<Insn, AllocError> {
    let copied = insn.copy(alloc)?;
    Ok(Insn {
        id,
        test: None,
        cell,
        place: Listed::new(alloc),
        storing: Storing::Plain,
        value,
        ..copied
    })
}

/// The instruction as an update by an operator, over other inames and with other dependences.
fn updating(insn: Insn, op: Op, inames: Listed<u32>, deps: Listed<Name>) -> Insn {
    Insn {
        inames,
        storing: Storing::Update(op),
        deps,
        ..insn
    }
}

/// The instruction with another value, data test and dependences.
fn reading(insn: Insn, value: Expr, test: Option<Test>, deps: Listed<Name>) -> Insn {
    Insn {
        value,
        test,
        deps,
        ..insn
    }
}

/// A reduction of an instruction, what is left of the instruction, the accumulator, and the chosen names.
#[derive(Clone, Copy)]
pub(crate) struct Realized<'a> {
    pub(crate) kernel: &'a Kernel,
    pub(crate) insn: &'a Insn,
    pub(crate) found: &'a Reduction,
    pub(crate) rest: &'a Rest,
    pub(crate) cell: Cell,
    pub(crate) chosen: &'a Chosen,
}

impl Realized<'_> {
    /// The initial store: the neutral value, over the instruction's inames and rows.
    fn init(&self, alloc: Global) -> Result<Insn, ExprFault> {
        let value = neutral(alloc, self.found.op, self.found.kind)?;
        let id = self.chosen.init.copy(alloc)?;
        Ok(stored(alloc, self.insn, id, self.cell, value)?)
    }

    /// Whether the instruction or the reduction has the iname.
    fn has(&self, iname: u32) -> bool {
        is_among(self.insn.inames.as_slice(), iname)
            || is_among(self.found.inames.as_slice(), iname)
    }

    /// The inames of the instruction and of the reduction, in declared order.
    fn inames(&self, alloc: Global) -> Result<Listed<u32>, AllocError> {
        let mut made = Listed::new(alloc);
        for iname in self.kernel.inames.as_slice() {
            if self.has(iname.var) {
                made.push(iname.var)?;
            }
        }
        Ok(made)
    }

    /// The dependences of the instruction, and on the initial store.
    fn deps_with_init(&self, alloc: Global) -> Result<Listed<Name>, AllocError> {
        let mut deps = copy_names(alloc, self.insn.deps.as_slice())?;
        deps.push(self.chosen.init.copy(alloc)?)?;
        Ok(deps)
    }

    /// The update by the reduction's operator with its expression, over the inames of both. It depends on the initial store.
    fn update(&self, alloc: Global) -> Result<Insn, AllocError> {
        let id = self.chosen.update.copy(alloc)?;
        let value = self.found.value.copy()?;
        let store = stored(alloc, self.insn, id, self.cell, value)?;
        let inames = self.inames(alloc)?;
        let deps = self.deps_with_init(alloc)?;
        Ok(updating(store, self.found.op, inames, deps))
    }

    /// The use: the instruction with what is left of it. It depends on both others.
    fn user(&self, alloc: Global) -> Result<Insn, AllocError> {
        let mut deps = self.deps_with_init(alloc)?;
        deps.push(self.chosen.update.copy(alloc)?)?;
        let value = self.rest.value.copy()?;
        let test = copy_test(alloc, &self.rest.test)?;
        let copied = self.insn.copy(alloc)?;
        Ok(reading(copied, value, test, deps))
    }

    /// Dependences on the instruction become dependences on all three, the others standing before it.
    fn deps(&self, alloc: Global, deps: &[Name]) -> Result<Listed<Name>, AllocError> {
        let mut made = Listed::new(alloc);
        for dep in deps {
            if dep.as_bytes() == self.insn.id.as_bytes() {
                made.push(self.chosen.init.copy(alloc)?)?;
                made.push(self.chosen.update.copy(alloc)?)?;
            }
            made.push(dep.copy(alloc)?)?;
        }
        Ok(made)
    }

    /// Another instruction, which depends on all three where it depended on the instruction.
    fn other(&self, alloc: Global, other: &Insn) -> Result<Insn, AllocError> {
        let deps = self.deps(alloc, other.deps.as_slice())?;
        let copied = other.copy(alloc)?;
        Ok(Insn { deps, ..copied })
    }

    /// All instructions, with the initial store and the update before the use.
    pub(crate) fn insns(&self, alloc: Global) -> Result<Listed<Insn>, ExprFault> {
        let mut made = Listed::new(alloc);
        for insn in self.kernel.insns.as_slice() {
            if insn.id.as_bytes() == self.insn.id.as_bytes() {
                made.push(self.init(alloc)?)?;
                made.push(self.update(alloc)?)?;
                made.push(self.user(alloc)?)?;
            } else {
                made.push(self.other(alloc, insn)?)?;
            }
        }
        Ok(made)
    }
}
