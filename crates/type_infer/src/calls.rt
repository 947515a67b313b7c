//! Which rules an expression uses.
ghost use Rattle.std.specs.Prelude.{◌≡◌, ◌++◌, map, OnOk, IfOk};
ghost use Rattle.type_infer.specs.Tables.{rules_in};
ghost use Rattle.kernel_ir.specs.Mentions.{listed, listed_in_test, calls};

use expr_tree::{Expr, Node, Test};
use std::alloc::AllocError;

/// Adds the rules that the expression uses, in the order of the text.
#[cycle(calls)]
pub(crate) fn add_calls(expr: &Expr, rules: &mut Vec<u32>) -> Result<(), AllocError>
    ensures { OnOk result (rules.new.items ≡ rules.old.items ++ rules_in expr.now) }
{
    match expr.node() {
        Node::Literal(_) | Node::Leaf(_) | Node::Read(_, _) => Ok(()),
        Node::Call(rule, _) => {
            rules.push(*rule)?;
            Ok(())
        }
        Node::Neg(a)
        | Node::Inv(a)
        | Node::Shl(a, _)
        | Node::Shr(a, _)
        | Node::Cast(_, a)
        | Node::Fold(_, _, a) => { add_calls(a, rules) }
        Node::Bin(_, a, b) => {
            add_calls(a, rules)?;
            add_calls(b, rules)
        }
        Node::Pick(test, a, b) => {
            add_test_calls(test, rules)?;
            add_calls(a, rules)?;
            add_calls(b, rules)
        }
    }
}

/// Adds the rules that the test uses.
#[cycle(calls)]
pub(crate) fn add_test_calls(test: &Test, rules: &mut Vec<u32>) -> Result<(), AllocError>
    ensures { OnOk result (rules.new.items ≡ rules.old.items ++ map (λ c. c.0) (listed_in_test calls test.now)) }
{
    match test {
        Test::Words(_, a, b) => {
            add_calls(a, rules)?;
            add_calls(b, rules)
        }
        Test::Index(_, _, _) => Ok(()),
        Test::All(p, q) | Test::Any(p, q) => {
            add_test_calls(p.get(), rules)?;
            add_test_calls(q.get(), rules)
        }
        Test::Not(p) => add_test_calls(p.get(), rules),
    }
}
