//! How many reductions and inames of reductions there are.
use expr_tree::{Expr, Node, Test};
use kernel_ir::Insn;

/// What is counted: each reduction as one, or by its inames.
#[derive(Clone, Copy, Debug, PartialEq, Eq)]
enum Counted {
    Folds,
    Inames,
}

fn count_of(counted: Counted, inames: &[u32]) -> usize {
    match counted {
        Counted::Folds => 1,
        Counted::Inames => inames.len(),
    }
}

#[cycle(count)]
fn in_value(counted: Counted, value: &Expr) -> usize {
    match value.node() {
        Node::Literal(_) | Node::Leaf(_) | Node::Read(_, _) | Node::Call(_, _) => 0,
        Node::Neg(a) | Node::Inv(a) | Node::Shl(a, _) | Node::Shr(a, _) | Node::Cast(_, a) => {
            in_value(counted, a)
        }
        Node::Bin(_, a, b) => in_value(counted, a).saturating_add(in_value(counted, b)),
        Node::Pick(test, a, b) => in_test(counted, test)
            .saturating_add(in_value(counted, a))
            .saturating_add(in_value(counted, b)),
        Node::Fold(_, inames, a) => {
            count_of(counted, inames.as_slice()).saturating_add(in_value(counted, a))
        }
    }
}

#[cycle(count)]
fn in_test(counted: Counted, test: &Test) -> usize {
    match test {
        Test::Words(_, a, b) => in_value(counted, a).saturating_add(in_value(counted, b)),
        Test::Index(_, _, _) => 0,
        Test::All(p, q) | Test::Any(p, q) => {
            in_test(counted, p.get()).saturating_add(in_test(counted, q.get()))
        }
        Test::Not(p) => in_test(counted, p.get()),
    }
}

fn in_insn(counted: Counted, insn: &Insn) -> usize {
    let own = in_value(counted, &insn.value);
    match &insn.test {
        None => own,
        Some(test) => own.saturating_add(in_test(counted, test)),
    }
}

/// The reductions of an instruction, in its value and its data test.
pub fn fold_count(insn: &Insn) -> usize {
    in_insn(Counted::Folds, insn)
}

/// The inames of an instruction and of its reductions.
pub fn iname_count(insn: &Insn) -> usize {
    insn.inames
        .len()
        .saturating_add(in_insn(Counted::Inames, insn))
}

/// The reductions of all instructions.
pub fn fold_count_of_all(insns: &[Insn]) -> usize {
    let mut count = 0usize;
    for insn in insns {
        count = count.saturating_add(fold_count(insn));
    }
    count
}
