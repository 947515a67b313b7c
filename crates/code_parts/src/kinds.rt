//! Kinds of cells and values.
use expr_tree::{Cell, Expr, Node};
use kernel_ir::Kernel;
use wrap_words::Kind;

/// The kind of an array or temporary.
pub fn kind_of(kernel: &Kernel, cell: Cell) -> Kind {
    let kind = match cell {
        Cell::Array(at) => match kernel.arrays.get(at as usize) {
            Some(array) => Some(array.kind),
            None => None,
        },
        Cell::Temp(at) => match kernel.temps.get(at as usize) {
            Some(temp) => temp.kind,
            None => None,
        },
    };
    kind.unwrap_or(Kind::I32)
}

/// The kind of the first read or cast of a value, outside its tests.
pub(crate) fn first_kind(kernel: &Kernel, expr: &Expr) -> Option<Kind> {
    match expr.node() {
        Node::Literal(_) | Node::Leaf(_) | Node::Call(_, _) => None,
        Node::Read(cell, _) => Some(kind_of(kernel, *cell)),
        Node::Neg(a) | Node::Inv(a) | Node::Shl(a, _) | Node::Shr(a, _) | Node::Fold(_, _, a) => {
            first_kind(kernel, a)
        }
        Node::Bin(_, a, b) | Node::Pick(_, a, b) => match first_kind(kernel, a) {
            Some(kind) => Some(kind),
            None => first_kind(kernel, b),
        },
        Node::Cast(kind, _) => Some(*kind),
    }
}

/// The kind of the two sides of a comparison of words, at the kind that is asked.
pub(crate) fn side_kind(kernel: &Kernel, a: &Expr, b: &Expr, kind: Kind) -> Kind {
    match first_kind(kernel, a) {
        Some(first) => first,
        None => first_kind(kernel, b).unwrap_or(kind),
    }
}
