//! The inames over which an instruction and its reductions are repeated.
use crate::access::joined;
use affine_rows::Listed;
use expr_tree::{Expr, Node, Test};
use kernel_ir::{Insn, Kernel};
use quasi_forms::is_among;
use std::alloc::{AllocError, Global};

/// An iname of an instruction or of one of its reductions. `folds` are the inames of that reduction and of those round it, the
/// outer ones first; there are none for an iname of the instruction.
#[derive(Drop)]
pub struct Repeated {
    pub iname: u32,
    pub folds: Listed<u32>,
}

/// Adds the inames of a reduction in declared order.
fn add_inames(
    alloc: Global,
    kernel: &Kernel,
    inames: &[u32],
    folds: &[u32],
    found: &mut Vec<Repeated>,
) -> Result<(), AllocError> {
    for iname in kernel.inames.as_slice() {
        if is_among(inames, iname.var) {
            found.push(Repeated {
                iname: iname.var,
                folds: Listed::from_slice(alloc, folds)?,
            })?;
        }
    }
    Ok(())
}

#[cycle(folds)]
fn add_node_folds(
    alloc: Global,
    kernel: &Kernel,
    node: &Node,
    folds: &[u32],
    found: &mut Vec<Repeated>,
) -> Result<(), AllocError> {
    match node {
        Node::Literal(_) | Node::Leaf(_) | Node::Call(_, _) | Node::Read(_, _) => Ok(()),
        Node::Neg(a) | Node::Inv(a) | Node::Shl(a, _) | Node::Shr(a, _) | Node::Cast(_, a) => {
            add_folds(alloc, kernel, a, folds, found)
        }
        Node::Bin(_, a, b) => {
            add_folds(alloc, kernel, a, folds, found)?;
            add_folds(alloc, kernel, b, folds, found)
        }
        Node::Pick(test, a, b) => {
            add_test_folds(alloc, kernel, test, folds, found)?;
            add_folds(alloc, kernel, a, folds, found)?;
            add_folds(alloc, kernel, b, folds, found)
        }
        Node::Fold(_, inames, a) => {
            let within = joined(alloc, folds, inames.as_slice())?;
            add_inames(alloc, kernel, inames.as_slice(), within.as_slice(), found)?;
            add_folds(alloc, kernel, a, within.as_slice(), found)
        }
    }
}

/// Adds the inames of the reductions in an expression within reductions over these inames.
#[cycle(folds)]
fn add_folds(
    alloc: Global,
    kernel: &Kernel,
    expr: &Expr,
    folds: &[u32],
    found: &mut Vec<Repeated>,
) -> Result<(), AllocError> {
    add_node_folds(alloc, kernel, expr.node(), folds, found)
}

#[cycle(folds)]
fn add_test_folds(
    alloc: Global,
    kernel: &Kernel,
    test: &Test,
    folds: &[u32],
    found: &mut Vec<Repeated>,
) -> Result<(), AllocError> {
    match test {
        Test::Words(_, a, b) => {
            add_folds(alloc, kernel, a, folds, found)?;
            add_folds(alloc, kernel, b, folds, found)
        }
        Test::Index(_, _, _) => Ok(()),
        Test::All(p, q) | Test::Any(p, q) => {
            add_test_folds(alloc, kernel, p.get(), folds, found)?;
            add_test_folds(alloc, kernel, q.get(), folds, found)
        }
        Test::Not(p) => add_test_folds(alloc, kernel, p.get(), folds, found),
    }
}

/// The inames of an instruction in their order, and then those of its reductions as these stand in predicate and value, an
/// outer reduction before those within it; of each the inames in declared order. A reduction in the body of a rule is none of
/// the instruction.
pub fn repeated_inames(
    alloc: Global,
    kernel: &Kernel,
    insn: &Insn,
) -> Result<Vec<Repeated>, AllocError> {
    let mut found = Vec::new(alloc);
    for iname in insn.inames.as_slice() {
        found.push(Repeated {
            iname: *iname,
            folds: Listed::new(alloc),
        })?;
    }
    if let Some(test) = &insn.test {
        add_test_folds(alloc, kernel, test, &[], &mut found)?;
    }
    add_folds(alloc, kernel, &insn.value, &[], &mut found)?;
    Ok(found)
}
