//! How deep a tree is.
ghost use Rattle.std.specs.Prelude.{◌≤◌, ◌↔◌, IsTrue};
ghost use Rattle.expr_tree.specs.Depth.{depth_of, depth_of_node, depth_of_test};

use crate::tree::{Expr, Node, Test};

/// Whether the node is at most so deep.
#[cycle(depth)]
pub(crate) fn node_within(node: &Node, most: u32) -> bool
    ensures { IsTrue result ↔ (depth_of_node node.now ≤ most) }
{
    if most == 0 {
        return false;
    }
    let below = most - 1;
    match node {
        Node::Literal(_) | Node::Leaf(_) | Node::Read(_, _) | Node::Call(_, _) => true,
        Node::Neg(a)
        | Node::Inv(a)
        | Node::Shl(a, _)
        | Node::Shr(a, _)
        | Node::Cast(_, a)
        | Node::Fold(_, _, a) => { expr_within(a, below) }
        Node::Bin(_, a, b) => expr_within(a, below) && expr_within(b, below),
        Node::Pick(test, a, b) => {
            test_within(test, below) && expr_within(a, below) && expr_within(b, below)
        }
    }
}

#[cycle(depth)]
fn expr_within(expr: &Expr, most: u32) -> bool
    ensures { IsTrue result ↔ (depth_of expr.now ≤ most) }
{
    node_within(expr.node(), most)
}

/// Whether the test is at most so deep.
#[cycle(depth)]
pub(crate) fn test_within(test: &Test, most: u32) -> bool
    ensures { IsTrue result ↔ (depth_of_test test.now ≤ most) }
{
    if most == 0 {
        return false;
    }
    let below = most - 1;
    match test {
        Test::Words(_, a, b) => expr_within(a, below) && expr_within(b, below),
        Test::Index(_, _, _) => true,
        Test::All(p, q) | Test::Any(p, q) => test_within(p.get(), below)
            && test_within(q.get(), below),
        Test::Not(p) => test_within(p.get(), below),
    }
}
