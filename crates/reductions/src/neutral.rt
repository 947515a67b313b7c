//! The neutral values of reductions.
ghost use Rattle.std.specs.Prelude.{◌≤◌, ◌^◌, unsigned_abs};

use affine_rows::{Form, Listed};
use expr_tree::{Expr, ExprFault, Node, Op};
use kernel_edits::tree_of;
use std::alloc::Global;
use wrap_words::Kind;

/// The greatest number of a kind.
fn greatest(kind: Kind) -> u64 {
    match kind {
        Kind::I32 => 2_147_483_647,
        Kind::I64 => 9_223_372_036_854_775_807,
        Kind::U32 => 4_294_967_295,
        Kind::U64 => 18_446_744_073_709_551_615,
    }
}

/// A small number as an index form.
fn leaf(alloc: Global, number: i64) -> Node
    requires { unsigned_abs number ≤ 2 ^ 20 }
{
    Node::Leaf(Form::affine(alloc, number, Listed::new(alloc)))
}

/// The least number of a kind: of a signed one as the number that is reduced to it.
fn least(alloc: Global, kind: Kind) -> Node {
    match kind {
        Kind::I32 => Node::Literal(2_147_483_648),
        Kind::I64 => Node::Literal(9_223_372_036_854_775_808),
        Kind::U32 | Kind::U64 => leaf(alloc, 0),
    }
}

/// 0 for a sum, 1 for a product, the kind's greatest number for the least value, its least for the greatest: an index form where
/// it is at most 1,048,576 in absolute value, else a number. Other operators make no reductions.
fn neutral_node(alloc: Global, op: Op, kind: Kind) -> Node {
    match op {
        Op::Mul => leaf(alloc, 1),
        Op::Min => Node::Literal(greatest(kind)),
        Op::Max => least(alloc, kind),
        Op::Add | Op::Sub | Op::And | Op::Or | Op::Xor => leaf(alloc, 0),
    }
}

/// The neutral value of a reduction's operator at a kind.
pub(crate) fn neutral(alloc: Global, op: Op, kind: Kind) -> Result<Expr, ExprFault> {
    tree_of(alloc, neutral_node(alloc, op, kind))
}
