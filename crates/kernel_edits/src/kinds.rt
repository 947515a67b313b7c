//! The kind of the first read or cast of a value, outside its inner tests.
use expr_tree::{Cell, Expr, Node, Test};
use kernel_ir::Kernel;
use std::alloc::{AllocError, Global};
use wrap_words::Kind;

/// The kind of the cells of an array or temporary.
pub fn cell_kind(kernel: &Kernel, cell: Cell) -> Option<Kind> {
    match cell {
        Cell::Array(at) => Some(kernel.arrays.get(at as usize)?.kind),
        Cell::Temp(at) => kernel.temps.get(at as usize)?.kind,
    }
}

/// What kinds are asked of: the kernel, and the kinds that lead the bodies of its rules.
#[derive(Clone, Copy)]
pub struct Kinds<'a> {
    pub kernel: &'a Kernel,
    pub leads: &'a [Option<Kind>],
}

/// The kind that leads a value, where those that lead the bodies of rules are known.
pub fn leading_kind(kernel: &Kernel, leads: &[Option<Kind>], value: &Expr) -> Option<Kind> {
    match value.node() {
        Node::Literal(_) | Node::Leaf(_) => None,
        Node::Read(cell, _) => cell_kind(kernel, *cell),
        Node::Call(rule, _) => *leads.get(*rule as usize)?,
        Node::Cast(kind, _) => Some(*kind),
        Node::Neg(a) | Node::Inv(a) | Node::Shl(a, _) | Node::Shr(a, _) | Node::Fold(_, _, a) =>
            leading_kind(kernel, leads, a),
        Node::Bin(_, a, b) | Node::Pick(_, a, b) => {
            leading_kind(kernel, leads, a).or(leading_kind(kernel, leads, b))
        }
    }
}

/// The kind of the sides of a comparison of words: that which leads one of them, else that which is asked of the node in which the
/// comparison stands.
pub fn leading_of_test(
    kernel: &Kernel,
    leads: &[Option<Kind>],
    left: &Expr,
    right: &Expr,
    asked: Kind,
) -> Kind {
    leading_kind(kernel, leads, left)
        .or(leading_kind(kernel, leads, right))
        .unwrap_or(asked)
}

/// One round: the kinds that lead the bodies of rules, where those of the rules that they use are known.
fn next_leads(
    alloc: Global,
    kernel: &Kernel,
    leads: &[Option<Kind>],
) -> Result<Vec<Option<Kind>>, AllocError> {
    let mut made = Vec::new(alloc);
    for rule in kernel.rules.as_slice() {
        made.push(leading_kind(kernel, leads, &rule.body))?;
    }
    Ok(made)
}

/// The kinds that lead the bodies of rules, of which none reaches itself. A round that changes nothing is the last one.
pub fn leads_of_rules(alloc: Global, kernel: &Kernel) -> Result<Vec<Option<Kind>>, AllocError> {
    let mut leads = Vec::new(alloc);
    for _ in 0..kernel.rules.len() {
        let next = next_leads(alloc, kernel, &leads)?;
        if next.as_slice() == leads.as_slice() {
            return Ok(leads);
        }
        leads = next;
    }
    Ok(leads)
}
