//! What expressions lead with.
ghost use Rattle.std.specs.Prelude.{◌≡◌};
ghost use Rattle.kind_faults.specs.Leads.{leading_at};
ghost use Rattle.type_infer.specs.Leads.{leading_of};

use expr_tree::{Expr, Node};
use kind_faults::{Leading, kept_leading};

/// The first read or cast of the expression outside its inner tests, by those of the rules.
#[cycle(leading)]
pub(crate) fn leading(expr: &Expr, rules: &[Option<Leading>]) -> Option<Leading>
    ensures { result ≡ leading_of (leading_at rules.now) expr.now }
{
    match expr.node() {
        Node::Literal(_) | Node::Leaf(_) => None,
        Node::Read(cell, _) => Some(Leading::Read(*cell)),
        Node::Call(rule, _) => kept_leading(rules, *rule as usize),
        Node::Neg(a) | Node::Inv(a) | Node::Shl(a, _) | Node::Shr(a, _) | Node::Fold(_, _, a) => {
            leading(a, rules)
        }
        Node::Bin(_, a, b) | Node::Pick(_, a, b) => match leading(a, rules) {
            Some(first) => Some(first),
            None => leading(b, rules),
        },
        Node::Cast(to, _) => Some(Leading::Cast(*to)),
    }
}
