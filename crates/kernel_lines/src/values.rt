//! What is read as values and tests.
ghost use Rattle.std.specs.Prelude.{◌≡◌, ◌≤◌, IfOk, OnOk};
ghost use Rattle.untyped.specs.Depths.{tree_depth};
ghost use Rattle.untyped.specs.Exprs.{expr_of, test_of};
ghost use Rattle.untyped.specs.Readings.{tree_of, untyped_of};
ghost use Rattle.kernel_lines.specs.Values.{is_update, stored_faults};

use crate::places::value_faults;
use expr_tree::{Expr, ExprFault, Steps, Test};
use kernel_grammar::{Step, Stored};
use kernel_names::LineFaults;
use std::alloc::{AllocError, Global};
use std::sync::ledger::Ledger;
use untyped::{Faults, Reading, Scope, Untyped, expr_of, read_untyped, test_of};

fn is_update(stored: Stored) -> bool
    ensures { result ≡ is_update stored }
{
    matches!(stored, Stored::Update(_))
}

/// The faults with those of depth.
fn with_depth(faults: Faults, deep: bool) -> Faults
    ensures { result ≡ record faults { depth = deep } }
{
    Faults {
        large: faults.large,
        wide: faults.wide,
        number: faults.number,
        depth: deep,
        form: faults.form,
        unknown: faults.unknown,
        shape: faults.shape,
    }
}

/// What an instruction stores, and what is wrong with it: the value of an update counts one deeper. A predicate is read as a
/// plain value. The only error is want of memory.
#[tactic(auto, using(crate::proofs::Shallow::shallow))]
pub fn read_value<S: Scope>(
    alloc: Global,
    scope: &S,
    stored: Stored,
    steps: &[Step],
) -> Result<(Untyped, LineFaults), AllocError>
    ensures tree { IfOk result (λ r. r.0 ≡ tree_of (untyped_of (S.roles scope.now) steps.now).part) }
    ensures faults { IfOk result (λ r. r.1 ≡ stored_faults stored (untyped_of (S.roles scope.now) steps.now)) }
    ensures shallow { IfOk result (λ r. tree_depth r.0 ≤ 64) }
{
    let Reading {
        part,
        depth,
        faults,
    } = read_untyped(alloc, scope, steps)?;
    let deep = faults.depth || (is_update(stored) && depth >= 64);
    let tree = part.into_tree(alloc)?;
    Ok((tree, value_faults(with_depth(faults, deep))))
}

/// An expression as a value. The only error is want of memory.
pub fn value_of<L: Ledger>(
    alloc: Global,
    tree: &Untyped,
    steps: &mut Steps<L>,
) -> Result<Expr, AllocError>
    requires { tree_depth tree.now ≤ 64 }
    ensures { IfOk result (λ e. e ≡ expr_of tree.now) }
{
    match expr_of(alloc, tree, steps) {
        Ok(expr) => Ok(expr),
        Err(ExprFault::OutOfMemory) => Err(AllocError),
        Err(ExprFault::Depth) => unreachable!(),
        Err(ExprFault::Limit) => unreachable!(),
    }
}

/// An expression as a test. The only error is want of memory.
pub fn truth_of<L: Ledger>(
    alloc: Global,
    tree: &Untyped,
    steps: &mut Steps<L>,
) -> Result<Test, AllocError>
    requires { tree_depth tree.now ≤ 64 }
    ensures { IfOk result (λ t. t ≡ test_of tree.now) }
{
    match test_of(alloc, tree, steps) {
        Ok(test) => Ok(test),
        Err(ExprFault::OutOfMemory) => Err(AllocError),
        Err(ExprFault::Depth) => unreachable!(),
        Err(ExprFault::Limit) => unreachable!(),
    }
}
