//! Trees with parts replaced.
ghost use Rattle.std.specs.Prelude.{◌≡◌, ◌≢◌, ◌+◌, ◌≤◌, IfOk, OnOk, OnErr, Some, None, is_some, unwrap_or};
ghost use Rattle.std.specs.Result.{IfErr};
ghost use Rattle.expr_tree.specs.Depth.{depth_of_node, depth_of_test};
ghost use Rattle.expr_tree.specs.Keeping.{KeepsTheTest, KeepsTheValue};
ghost use Rattle.expr_tree.specs.Rewritten.{first_refusal, first_refusal_in_test, outcome_of, outcome_of_test, replaced_above, replaced_above_in_test, rewritten, rewritten_test, too_deep, tree_of};

use crate::build::{ExprFault, MAX_DEPTH, make};
use crate::depth::test_within;
use crate::parts::{forms, test_and_trees, tests, tree_and_inames, trees};
use crate::rewriting::Rewriting;
use crate::shared::Shared;
use crate::steps::Steps;
use crate::tree::{Expr, Node, Test};
use std::alloc::Global;
use std::sync::ledger::Ledger;

/// The tree of a node that is made anew.
fn remade<L: Ledger>(
    alloc: Global,
    node: Node,
    steps: &mut Steps<L>,
) -> Result<Option<Expr>, ExprFault>
    ensures new { IfOk result (λ made. made ≡ Some (tree_of node)) }
    ensures fits { OnOk result (too_deep (depth_of_node node) ≡ None) }
    ensures refused { IfErr result (λ f. f ≢ ExprFault.OutOfMemory → too_deep (depth_of_node node) ≡ Some f) }
    ensures counted { steps.new ≡ steps.old + 1 }
{
    Ok(Some(make(alloc, node, steps)?))
}

/// A test that is made anew.
fn remade_test(test: Test) -> Result<Option<Test>, ExprFault>
    ensures new { IfOk result (λ made. made ≡ Some test) }
    ensures fits { OnOk result (too_deep (depth_of_test test) ≡ None) }
    ensures refused { IfErr result (λ f. too_deep (depth_of_test test) ≡ Some f) }
{
    if !test_within(&test, MAX_DEPTH) {
        return Err(ExprFault::Depth);
    }
    Ok(Some(test))
}

impl Expr {
    /// The tree with the parts replaced for which the rewriting puts others: each number, index form, read and use of a
    /// rule, each form of a test of two index forms, and the inames of each reduction. Where nothing in or below a node
    /// is replaced the node is shared. The steps rise by one for each node that is made anew over a replaced part; trees
    /// that the rewriting puts are not counted. The value is kept wherever the rewriting keeps what the parts mean.
    /// `Depth` comes exactly where a new tree or test would be deeper than `MAX_DEPTH` or the rewriting answers it, and
    /// `Limit` exactly where the rewriting answers it: the one that comes first in a walk of the tree with children from
    /// left to right before their node.
    pub fn rewrite<R: Rewriting, L: Ledger>(
        &self,
        alloc: Global,
        by: &R,
        steps: &mut Steps<L>,
    ) -> Result<Expr, ExprFault>
        ensures tree { IfOk result (λ e. e ≡ rewritten (R.rules by.now) self.now) }
        ensures value { IfOk result (λ e. KeepsTheValue (R.rules by.now) self.now e) }
        ensures fits { OnOk result (first_refusal (R.rules by.now) self.now ≡ None) }
        ensures refused { IfErr result (λ f. f ≢ ExprFault.OutOfMemory → first_refusal (R.rules by.now) self.now ≡ Some f) }
        ensures counted { OnOk result (steps.new ≡ steps.old + replaced_above (R.rules by.now) self.now) }
        ensures no_more { OnErr result (steps.new ≤ steps.old + replaced_above (R.rules by.now) self.now) }
        ensures no_less { OnErr result (steps.old ≤ steps.new) }
    {
        match self.replaced(alloc, by, steps)? {
            Some(tree) => Ok(tree),
            None => Ok(self.copy()?),
        }
    }

    /// The rewritten tree, or none where nothing is replaced.
    #[cycle(replaced)]
    fn replaced<R: Rewriting, L: Ledger>(
        &self,
        alloc: Global,
        by: &R,
        steps: &mut Steps<L>,
    ) -> Result<Option<Expr>, ExprFault>
        ensures new { IfOk result (λ made. unwrap_or made self.now ≡ rewritten (R.rules by.now) self.now) }
        ensures changed { IfOk result (λ made. is_some made ≡ (outcome_of (R.rules by.now) self.now).changed) }
        ensures fits { OnOk result (first_refusal (R.rules by.now) self.now ≡ None) }
        ensures refused { IfErr result (λ f. f ≢ ExprFault.OutOfMemory → first_refusal (R.rules by.now) self.now ≡ Some f) }
        ensures counted { OnOk result (steps.new ≡ steps.old + replaced_above (R.rules by.now) self.now) }
        ensures no_more { OnErr result (steps.new ≤ steps.old + replaced_above (R.rules by.now) self.now) }
        ensures no_less { OnErr result (steps.old ≤ steps.new) }
    {
        let node = self.node();
        match node {
            Node::Literal(_) | Node::Leaf(_) | Node::Read(_, _) | Node::Call(_, _) => {
                by.leaf(alloc, node)
            }
            Node::Neg(a) => match a.replaced(alloc, by, steps)? {
                Some(a) => remade(alloc, Node::Neg(a), steps),
                None => Ok(None),
            },
            Node::Inv(a) => match a.replaced(alloc, by, steps)? {
                Some(a) => remade(alloc, Node::Inv(a), steps),
                None => Ok(None),
            },
            Node::Shl(a, places) => match a.replaced(alloc, by, steps)? {
                Some(a) => remade(alloc, Node::Shl(a, *places), steps),
                None => Ok(None),
            },
            Node::Shr(a, places) => match a.replaced(alloc, by, steps)? {
                Some(a) => remade(alloc, Node::Shr(a, *places), steps),
                None => Ok(None),
            },
            Node::Bin(op, a, b) => {
                let new_a = a.replaced(alloc, by, steps)?;
                let new_b = b.replaced(alloc, by, steps)?;
                match trees(a, new_a, b, new_b)? {
                    Some((a, b)) => remade(alloc, Node::Bin(*op, a, b), steps),
                    None => Ok(None),
                }
            }
            Node::Pick(test, a, b) => {
                let new_test = test.replaced(alloc, by, steps)?;
                let new_a = a.replaced(alloc, by, steps)?;
                let new_b = b.replaced(alloc, by, steps)?;
                let new_trees = trees(a, new_a, b, new_b)?;
                match test_and_trees(alloc, test, new_test, a, b, new_trees)? {
                    Some((test, (a, b))) => remade(alloc, Node::Pick(test, a, b), steps),
                    None => Ok(None),
                }
            }
            Node::Cast(kind, a) => match a.replaced(alloc, by, steps)? {
                Some(a) => remade(alloc, Node::Cast(*kind, a), steps),
                None => Ok(None),
            },
            Node::Fold(op, inames, a) => {
                let new_a = a.replaced(alloc, by, steps)?;
                let new_inames = by.over(alloc, inames.as_slice())?;
                match tree_and_inames(alloc, a, new_a, inames, new_inames)? {
                    Some((a, inames)) => remade(alloc, Node::Fold(*op, inames, a), steps),
                    None => Ok(None),
                }
            }
        }
    }
}

impl Test {
    /// The test with parts replaced, with the refusals and the steps of `Expr::rewrite`. A test is no node of an
    /// expression, so it is not counted.
    pub fn rewrite<R: Rewriting, L: Ledger>(
        &self,
        alloc: Global,
        by: &R,
        steps: &mut Steps<L>,
    ) -> Result<Test, ExprFault>
        ensures test { IfOk result (λ t. t ≡ rewritten_test (R.rules by.now) self.now) }
        ensures value { IfOk result (λ t. KeepsTheTest (R.rules by.now) self.now t) }
        ensures fits { OnOk result (first_refusal_in_test (R.rules by.now) self.now ≡ None) }
        ensures refused { IfErr result (λ f. f ≢ ExprFault.OutOfMemory → first_refusal_in_test (R.rules by.now) self.now ≡ Some f) }
        ensures counted { OnOk result (steps.new ≡ steps.old + replaced_above_in_test (R.rules by.now) self.now) }
        ensures no_more { OnErr result (steps.new ≤ steps.old + replaced_above_in_test (R.rules by.now) self.now) }
        ensures no_less { OnErr result (steps.old ≤ steps.new) }
    {
        match self.replaced(alloc, by, steps)? {
            Some(test) => Ok(test),
            None => Ok(self.copy(alloc)?),
        }
    }

    /// The rewritten test, or none where nothing is replaced.
    #[cycle(replaced)]
    fn replaced<R: Rewriting, L: Ledger>(
        &self,
        alloc: Global,
        by: &R,
        steps: &mut Steps<L>,
    ) -> Result<Option<Test>, ExprFault>
        ensures new { IfOk result (λ made. unwrap_or made self.now ≡ rewritten_test (R.rules by.now) self.now) }
        ensures changed { IfOk result (λ made. is_some made ≡ (outcome_of_test (R.rules by.now) self.now).changed) }
        ensures fits { OnOk result (first_refusal_in_test (R.rules by.now) self.now ≡ None) }
        ensures refused { IfErr result (λ f. f ≢ ExprFault.OutOfMemory → first_refusal_in_test (R.rules by.now) self.now ≡ Some f) }
        ensures counted { OnOk result (steps.new ≡ steps.old + replaced_above_in_test (R.rules by.now) self.now) }
        ensures no_more { OnErr result (steps.new ≤ steps.old + replaced_above_in_test (R.rules by.now) self.now) }
        ensures no_less { OnErr result (steps.old ≤ steps.new) }
    {
        match self {
            Test::Words(rel, a, b) => {
                let new_a = a.replaced(alloc, by, steps)?;
                let new_b = b.replaced(alloc, by, steps)?;
                match trees(a, new_a, b, new_b)? {
                    Some((a, b)) => remade_test(Test::Words(*rel, a, b)),
                    None => Ok(None),
                }
            }
            Test::Index(rel, a, b) => {
                let new_a = by.form(alloc, a)?;
                let new_b = by.form(alloc, b)?;
                match forms(alloc, a, new_a, b, new_b)? {
                    Some((a, b)) => Ok(Some(Test::Index(*rel, a, b))),
                    None => Ok(None),
                }
            }
            Test::All(p, q) => {
                let new_p = p.get().replaced(alloc, by, steps)?;
                let new_q = q.get().replaced(alloc, by, steps)?;
                match tests(alloc, p, new_p, q, new_q)? {
                    Some((p, q)) => remade_test(Test::All(p, q)),
                    None => Ok(None),
                }
            }
            Test::Any(p, q) => {
                let new_p = p.get().replaced(alloc, by, steps)?;
                let new_q = q.get().replaced(alloc, by, steps)?;
                match tests(alloc, p, new_p, q, new_q)? {
                    Some((p, q)) => remade_test(Test::Any(p, q)),
                    None => Ok(None),
                }
            }
            Test::Not(p) => match p.get().replaced(alloc, by, steps)? {
                Some(p) => remade_test(Test::Not(Shared::new(alloc, p)?)),
                None => Ok(None),
            },
        }
    }
}
