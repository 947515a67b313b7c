//! The inames of reductions.
use affine_rows::Listed;
use expr_tree::{Expr, Node, Test};
use kernel_ir::Insn;
use std::alloc::{AllocError, Global};

#[cycle(folds)]
fn add_folds(alloc: Global, expr: &Expr, made: &mut Listed<Listed<u32>>) -> Result<(), AllocError> {
    match expr.node() {
        Node::Literal(_) | Node::Leaf(_) | Node::Call(_, _) | Node::Read(_, _) => Ok(()),
        Node::Neg(a) | Node::Inv(a) | Node::Shl(a, _) | Node::Shr(a, _) | Node::Cast(_, a) => {
            add_folds(alloc, a, made)
        }
        Node::Bin(_, a, b) => {
            add_folds(alloc, a, made)?;
            add_folds(alloc, b, made)
        }
        Node::Pick(test, a, b) => {
            add_test_folds(alloc, test, made)?;
            add_folds(alloc, a, made)?;
            add_folds(alloc, b, made)
        }
        Node::Fold(_, inames, a) => {
            made.push(Listed::from_slice(alloc, inames.as_slice())?)?;
            add_folds(alloc, a, made)
        }
    }
}

#[cycle(folds)]
fn add_test_folds(
    alloc: Global,
    test: &Test,
    made: &mut Listed<Listed<u32>>,
) -> Result<(), AllocError> {
    match test {
        Test::Words(_, a, b) => {
            add_folds(alloc, a, made)?;
            add_folds(alloc, b, made)
        }
        Test::Index(_, _, _) => Ok(()),
        Test::All(p, q) | Test::Any(p, q) => {
            add_test_folds(alloc, p.get(), made)?;
            add_test_folds(alloc, q.get(), made)
        }
        Test::Not(p) => add_test_folds(alloc, p.get(), made),
    }
}

/// The inames of each reduction of an instruction, those of the predicate first, an outer reduction before those within it.
pub(crate) fn folds_of(alloc: Global, insn: &Insn) -> Result<Listed<Listed<u32>>, AllocError> {
    let mut made = Listed::new(alloc);
    if let Some(test) = &insn.test {
        add_test_folds(alloc, test, &mut made)?;
    }
    add_folds(alloc, &insn.value, &mut made)?;
    Ok(made)
}
