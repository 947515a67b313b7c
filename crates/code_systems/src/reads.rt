//! The reads of expressions and tests in text order.
use crate::access::{Access, add_all_new, add_new};
use crate::frame::Frame;
use crate::there::There;
use affine_rows::{Form, Listed};
use expr_tree::{Cell, Expr, Node, Test};
use std::alloc::{AllocError, Global};

/// Adds a read, whose subscript is named by its one form.
fn add_read(
    alloc: Global,
    frame: &Frame<'_>,
    there: &There,
    cell: Cell,
    place: &[Form],
    made: &mut Listed<Access>,
) -> Result<(), AllocError> {
    let flat = match place.first() {
        None => None,
        Some(form) => frame
            .flats
            .get(form.quasi().constant.unsigned_abs() as usize),
    };
    add_new(made, Access::new(alloc, cell, flat, false, there)?)
}

/// Adds the different reads of an expression.
#[cycle(reads)]
pub(crate) fn add_reads(
    alloc: Global,
    frame: &Frame<'_>,
    there: &There,
    expr: &Expr,
    made: &mut Listed<Access>,
) -> Result<(), AllocError> {
    match expr.node() {
        Node::Literal(_) | Node::Leaf(_) | Node::Call(_, _) => Ok(()),
        Node::Read(cell, place) => add_read(alloc, frame, there, *cell, place.as_slice(), made),
        Node::Neg(a)
        | Node::Inv(a)
        | Node::Shl(a, _)
        | Node::Shr(a, _)
        | Node::Cast(_, a)
        | Node::Fold(_, _, a) => { add_reads(alloc, frame, there, a, made) }
        Node::Bin(_, a, b) => {
            add_reads(alloc, frame, there, a, made)?;
            add_reads(alloc, frame, there, b, made)
        }
        Node::Pick(test, a, b) => {
            add_test_reads(alloc, frame, there, test, made)?;
            add_reads(alloc, frame, there, a, made)?;
            add_reads(alloc, frame, there, b, made)
        }
    }
}

/// Adds the different reads of a test.
#[cycle(reads)]
fn add_test_reads(
    alloc: Global,
    frame: &Frame<'_>,
    there: &There,
    test: &Test,
    made: &mut Listed<Access>,
) -> Result<(), AllocError> {
    match test {
        Test::Words(_, a, b) => {
            add_reads(alloc, frame, there, a, made)?;
            add_reads(alloc, frame, there, b, made)
        }
        Test::Index(_, _, _) => Ok(()),
        Test::All(p, q) | Test::Any(p, q) => {
            add_test_reads(alloc, frame, there, p.get(), made)?;
            add_test_reads(alloc, frame, there, q.get(), made)
        }
        Test::Not(p) => add_test_reads(alloc, frame, there, p.get(), made),
    }
}

/// The different reads of outer tests and of a test here.
pub fn with_test(
    alloc: Global,
    frame: &Frame<'_>,
    there: &There,
    outer: &[Access],
    test: &Test,
) -> Result<Listed<Access>, AllocError> {
    let mut made = Listed::new(alloc);
    add_all_new(alloc, &mut made, outer)?;
    add_test_reads(alloc, frame, there, test, &mut made)?;
    Ok(made)
}
