//! Expressions and tests in which values and tests are told apart.
ghost use Rattle.std.specs.Prelude.{◌≡◌, ◌≢◌, ◌<◌, ◌≤◌, IfOk, Err};
ghost use Rattle.expr_tree.specs.Depth.{depth_of, depth_of_test};
ghost use Rattle.expr_tree.specs.Rewritten.{tree_of};
ghost use Rattle.untyped.specs.Depths.{tree_depth};
ghost use Rattle.untyped.specs.Exprs.{expr_of, form_of, no_test, test_of};

use crate::index::one;
use crate::joints::{Joint, folding_op, index_test, joint_of, op_of, shift_by, words_test};
use crate::tree::{Term, Untyped};
use affine_rows::{Form, Listed, copy_forms};
use expr_tree::{Expr, ExprFault, Node, Rel, Shared, Steps, Test, make};
use kernel_grammar::Prefix;
use std::alloc::{AllocError, Global};
use std::sync::ledger::Ledger;

/// The form of an expression that is an index expression. The only error is want of memory.
pub fn form_of(alloc: Global, tree: &Untyped) -> Result<Option<Form>, AllocError>
    ensures { IfOk result (λ o. o ≡ form_of tree.now) }
{
    match tree.term() {
        Term::Index(form, _) => Ok(Some(form.copy(alloc)?)),
        _ => Ok(None),
    }
}

/// What stands where a test is wanted and none is.
fn no_test(alloc: Global) -> Test
    ensures { result ≡ no_test }
{
    Test::Index(Rel::Equal, one(alloc), one(alloc))
}

/// The node of the expression as a value.
#[cycle(values)]
fn node_for<L: Ledger>(
    alloc: Global,
    tree: &Untyped,
    steps: &mut Steps<L>,
) -> Result<Node, ExprFault>
    ensures node { IfOk result (λ n. tree_of n ≡ expr_of tree.now) }
    ensures deep { result ≡ Err ExprFault.Depth → 64 < depth_of (expr_of tree.now) }
    ensures limit { result ≢ Err ExprFault.Limit }
{
    match tree.term() {
        Term::Index(form, _) => Ok(Node::Leaf(form.copy(alloc)?)),
        Term::Literal(number) => Ok(Node::Literal(*number)),
        Term::Read(cell, place) => Ok(Node::Read(*cell, copy_forms(alloc, place.as_slice())?)),
        Term::Use(rule, arguments) => {
            Ok(Node::Call(*rule, copy_forms(alloc, arguments.as_slice())?))
        }
        Term::Prefix(Prefix::Not, _) => Ok(Node::Leaf(one(alloc))),
        Term::Prefix(Prefix::Negate, a) => Ok(Node::Neg(value_of(alloc, a, steps)?)),
        Term::Prefix(Prefix::Invert, a) => Ok(Node::Inv(value_of(alloc, a, steps)?)),
        Term::Infix(op, a, b) => match op_of(*op) {
            Some(op) => {
                let left = value_of(alloc, a, steps)?;
                let right = value_of(alloc, b, steps)?;
                Ok(Node::Bin(op, left, right))
            }
            None => Ok(Node::Leaf(one(alloc))),
        },
        Term::ShiftLeft(a, by) => Ok(Node::Shl(value_of(alloc, a, steps)?, shift_by(*by))),
        Term::ShiftRight(a, by) => Ok(Node::Shr(value_of(alloc, a, steps)?, shift_by(*by))),
        Term::Cast(kind, a) => Ok(Node::Cast(*kind, value_of(alloc, a, steps)?)),
        Term::Choose(test, a, b) => {
            let test = truth_of(alloc, test, steps)?;
            let yes = value_of(alloc, a, steps)?;
            let no = value_of(alloc, b, steps)?;
            Ok(Node::Pick(test, yes, no))
        }
        Term::Fold(how, inames, a) => {
            let inames = Listed::from_slice(alloc, inames.as_slice())?;
            Ok(Node::Fold(folding_op(*how), inames, value_of(alloc, a, steps)?))
        }
    }
}

/// The expression as a value.
#[cycle(values)]
fn value_of<L: Ledger>(
    alloc: Global,
    tree: &Untyped,
    steps: &mut Steps<L>,
) -> Result<Expr, ExprFault>
    ensures expr { IfOk result (λ e. e ≡ expr_of tree.now) }
    ensures deep { result ≡ Err ExprFault.Depth → 64 < depth_of (expr_of tree.now) }
    ensures limit { result ≢ Err ExprFault.Limit }
{
    let node = node_for(alloc, tree, steps)?;
    make(alloc, node, steps)
}

/// The expression as a test.
#[cycle(values)]
fn truth_of<L: Ledger>(
    alloc: Global,
    tree: &Untyped,
    steps: &mut Steps<L>,
) -> Result<Test, ExprFault>
    ensures test { IfOk result (λ t. t ≡ test_of tree.now) }
    ensures deep { result ≡ Err ExprFault.Depth → 64 < depth_of_test (test_of tree.now) }
    ensures limit { result ≢ Err ExprFault.Limit }
{
    match tree.term() {
        Term::Prefix(Prefix::Not, a) => {
            let test = truth_of(alloc, a, steps)?;
            Ok(Test::Not(Shared::new(alloc, test)?))
        }
        Term::Infix(op, a, b) => match joint_of(*op) {
            Joint::Any => {
                let left = truth_of(alloc, a, steps)?;
                let right = truth_of(alloc, b, steps)?;
                Ok(Test::Any(Shared::new(alloc, left)?, Shared::new(alloc, right)?))
            }
            Joint::All => {
                let left = truth_of(alloc, a, steps)?;
                let right = truth_of(alloc, b, steps)?;
                Ok(Test::All(Shared::new(alloc, left)?, Shared::new(alloc, right)?))
            }
            Joint::Compared { rel, turned } => match (form_of(alloc, a)?, form_of(alloc, b)?) {
                (Some(left), Some(right)) => Ok(index_test(rel, turned, left, right)),
                _ => {
                    let left = value_of(alloc, a, steps)?;
                    let right = value_of(alloc, b, steps)?;
                    Ok(words_test(rel, turned, left, right))
                }
            },
            Joint::Nothing => Ok(no_test(alloc)),
        },
        _ => Ok(no_test(alloc)),
    }
}

/// The expression as a value, with a step for each node. Where a test stands as a value, or `//` or `%` outside an index
/// expression, 1 stands in its place. `Depth` comes only where the value is deeper than 64, and never for an expression that
/// was read.
pub fn expr_of<L: Ledger>(
    alloc: Global,
    tree: &Untyped,
    steps: &mut Steps<L>,
) -> Result<Expr, ExprFault>
    ensures expr { IfOk result (λ e. e ≡ expr_of tree.now) }
    ensures deep { result ≡ Err ExprFault.Depth → 64 < depth_of (expr_of tree.now) }
    ensures shallow { tree_depth tree.now ≤ 64 → result ≢ Err ExprFault.Depth }
    ensures limit { result ≢ Err ExprFault.Limit }
{
    value_of(alloc, tree, steps)
}

/// The expression as a test, with a step for each node. Comparisons by `>` and `>=` are turned. Where a value stands as a
/// test, `1 = 1` stands in its place. `Depth` comes only where the test is deeper than 64, and never for an expression that
/// was read.
pub fn test_of<L: Ledger>(
    alloc: Global,
    tree: &Untyped,
    steps: &mut Steps<L>,
) -> Result<Test, ExprFault>
    ensures test { IfOk result (λ t. t ≡ test_of tree.now) }
    ensures deep { result ≡ Err ExprFault.Depth → 64 < depth_of_test (test_of tree.now) }
    ensures shallow { tree_depth tree.now ≤ 64 → result ≢ Err ExprFault.Depth }
    ensures limit { result ≢ Err ExprFault.Limit }
{
    truth_of(alloc, tree, steps)
}
