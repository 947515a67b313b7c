//! Trees with all uses of rules replaced.
ghost use Rattle.std.specs.Prelude.{◌≡◌, ◌≢◌, ◌<◌, length, true, Some, None, IfOk, OnOk};
ghost use Rattle.std.specs.Result.{IfErr};
ghost use Rattle.expr_tree.specs.Rewritten.{outcome_of, outcome_of_test};
ghost use Rattle.expr_tree.specs.Keeping.{is_made_of, test_is_made_of};
ghost use Rattle.kernel_ir.specs.Expanded.{expanded, expanding_all};
ghost use Rattle.expr_tree.specs.Rewritten.{rewritten_test};
ghost use Rattle.subst_rules.specs.Replaced.{refusal_to, replacing, test_refusal_to, use_free};

use crate::replace::Replacing;
use expr_tree::{Expr, ExprFault, Node, Steps, Test};
use kernel_ir::{Kernel, SubstRule};
use std::alloc::Global;
use std::marker::Brand;
use std::sync::ledger::{Blank, Ledger};

/// The tree with all uses of rules replaced, those in the bodies too: one depth of uses after the other, until none is
/// left. The fault that comes is that of the first round that meets one.
pub(crate) fn expanded(alloc: Global, kernel: &Kernel, expr: &Expr) -> Result<Expr, ExprFault>
    ensures tree { IfOk result (λ e. e ≡ expanded kernel.now expr.now) }
    ensures fits { OnOk result (refusal_to kernel.now.rules (length kernel.now.rules) expr.now ≡ None) }
    ensures refused { IfErr result (λ f. f ≢ ExprFault.OutOfMemory → refusal_to kernel.now.rules (length kernel.now.rules) expr.now ≡ Some f) }
{
    let mut tree = expr.copy()?;
    for _round in 0..kernel.rules.len() {
        let settled = is_use_free(&tree);
        if settled {
            return Ok(tree);
        }
        match next_tree(alloc, kernel, &tree) {
            Ok(next) => tree = next,
            Err(fault) => return Err(fault),
        }
    }
    Ok(tree)
}

/// The test with all uses of rules replaced, likewise.
pub(crate) fn expanded_test(alloc: Global, kernel: &Kernel, test: &Test) -> Result<Test, ExprFault>
    ensures test { IfOk result (λ t. t ≡ rewritten_test (expanding_all kernel.now) test.now) }
    ensures fits { OnOk result (test_refusal_to kernel.now.rules (length kernel.now.rules) test.now ≡ None) }
    ensures refused { IfErr result (λ f. f ≢ ExprFault.OutOfMemory → test_refusal_to kernel.now.rules (length kernel.now.rules) test.now ≡ Some f) }
{
    let mut made = test.copy(alloc)?;
    for _round in 0..kernel.rules.len() {
        let settled = is_use_free_test(&made);
        if settled {
            return Ok(made);
        }
        match next_test(alloc, kernel, &made) {
            Ok(next) => made = next,
            Err(fault) => return Err(fault),
        }
    }
    Ok(made)
}

/// The tree with each use replaced, those in the bodies not.
fn next_tree(alloc: Global, kernel: &Kernel, tree: &Expr) -> Result<Expr, ExprFault>
    ensures tree { IfOk result (λ e. e ≡ (outcome_of (replacing kernel.now.rules) tree.now).new) }
    ensures fits { OnOk result ((outcome_of (replacing kernel.now.rules) tree.now).refusal ≡ None) }
    ensures refused { IfErr result (λ f. f ≢ ExprFault.OutOfMemory → (outcome_of (replacing kernel.now.rules) tree.now).refusal ≡ Some f) }
{
    replaced::<Brand>(alloc, kernel.rules.as_slice(), tree, Blank::new(1))
}

fn replaced<L: Ledger>(
    alloc: Global,
    rules: &[SubstRule],
    tree: &Expr,
    blank: Blank,
) -> Result<Expr, ExprFault>
    requires name { blank.name ≡ L.name }
    requires parts { blank.parts ≡ L.parts }
    requires some { 0 < blank.parts }
    ensures tree { IfOk result (λ e. e ≡ (outcome_of (replacing rules.now) tree.now).new) }
    ensures fits { OnOk result ((outcome_of (replacing rules.now) tree.now).refusal ≡ None) }
    ensures refused { IfErr result (λ f. f ≢ ExprFault.OutOfMemory → (outcome_of (replacing rules.now) tree.now).refusal ≡ Some f) }
{
    let mut steps = Steps::<L>::open(blank);
    tree.rewrite(alloc, &Replacing { rules }, &mut steps)
}

/// The test with each use replaced, those in the bodies not.
fn next_test(alloc: Global, kernel: &Kernel, test: &Test) -> Result<Test, ExprFault>
    ensures test { IfOk result (λ t. t ≡ (outcome_of_test (replacing kernel.now.rules) test.now).new) }
    ensures fits { OnOk result ((outcome_of_test (replacing kernel.now.rules) test.now).refusal ≡ None) }
    ensures refused { IfErr result (λ f. f ≢ ExprFault.OutOfMemory → (outcome_of_test (replacing kernel.now.rules) test.now).refusal ≡ Some f) }
{
    replaced_test::<Brand>(alloc, kernel.rules.as_slice(), test, Blank::new(1))
}

fn replaced_test<L: Ledger>(
    alloc: Global,
    rules: &[SubstRule],
    test: &Test,
    blank: Blank,
) -> Result<Test, ExprFault>
    requires name { blank.name ≡ L.name }
    requires parts { blank.parts ≡ L.parts }
    requires some { 0 < blank.parts }
    ensures test { IfOk result (λ t. t ≡ (outcome_of_test (replacing rules.now) test.now).new) }
    ensures fits { OnOk result ((outcome_of_test (replacing rules.now) test.now).refusal ≡ None) }
    ensures refused { IfErr result (λ f. f ≢ ExprFault.OutOfMemory → (outcome_of_test (replacing rules.now) test.now).refusal ≡ Some f) }
{
    let mut steps = Steps::<L>::open(blank);
    test.rewrite(alloc, &Replacing { rules }, &mut steps)
}

/// Whether no rule is used.
#[cycle(free)]
fn is_use_free(expr: &Expr) -> bool
    ensures { result ≡ is_made_of use_free expr.now }
{
    match expr.node() {
        Node::Literal(_) | Node::Leaf(_) | Node::Read(_, _) => true,
        Node::Call(_, _) => false,
        Node::Neg(a)
        | Node::Inv(a)
        | Node::Shl(a, _)
        | Node::Shr(a, _)
        | Node::Cast(_, a)
        | Node::Fold(_, _, a) => is_use_free(a),
        Node::Bin(_, a, b) => is_use_free(a) && is_use_free(b),
        Node::Pick(test, a, b) => is_use_free_test(test) && is_use_free(a) && is_use_free(b),
    }
}

#[cycle(free)]
fn is_use_free_test(test: &Test) -> bool
    ensures { result ≡ test_is_made_of use_free test.now }
{
    match test {
        Test::Words(_, a, b) => is_use_free(a) && is_use_free(b),
        Test::Index(_, _, _) => true,
        Test::All(p, q) | Test::Any(p, q) => {
            is_use_free_test(p.get()) && is_use_free_test(q.get())
        }
        Test::Not(p) => is_use_free_test(p.get()),
    }
}
