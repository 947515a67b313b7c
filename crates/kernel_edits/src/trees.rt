//! Trees with a counter of their own, and instructions rewritten.
ghost use Rattle.std.specs.Prelude.{◌≡◌, ◌<◌, true, IfOk};
ghost use Rattle.std.specs.Result.{IfErr};
ghost use Rattle.expr_tree.specs.Rewritten.{tree_of};
ghost use Rattle.kernel_edits.specs.Changing.{is_leaf};

use expr_tree::{Expr, ExprFault, Node, Rewriting, Steps, Test, make};
use kernel_ir::Insn;
use std::alloc::Global;
use std::marker::Brand;
use std::sync::ledger::{Blank, Ledger};

fn made_in<L: Ledger>(alloc: Global, node: Node, blank: Blank) -> Result<Expr, ExprFault>
    requires name { blank.name ≡ L.name }
    requires parts { blank.parts ≡ L.parts }
    requires some { 0 < blank.parts }
    ensures tree { IfOk result (λ e. e ≡ tree_of node) }
    ensures leaf { is_leaf node ≡ true → IfErr result (λ f. f ≡ ExprFault.OutOfMemory) }
{
    let mut steps = Steps::<L>::open(blank);
    make(alloc, node, &mut steps)
}

/// The tree of a node. `Depth` comes exactly where it would be too deep, so not for a node without parts.
pub fn tree_of(alloc: Global, node: Node) -> Result<Expr, ExprFault>
    ensures tree { IfOk result (λ e. e ≡ tree_of node) }
    ensures leaf { is_leaf node ≡ true → IfErr result (λ f. f ≡ ExprFault.OutOfMemory) }
{
    made_in::<Brand>(alloc, node, Blank::new(1))
}

fn value_in<R: Rewriting, L: Ledger>(
    alloc: Global,
    value: &Expr,
    by: &R,
    blank: Blank,
) -> Result<Expr, ExprFault>
    requires name { blank.name ≡ L.name }
    requires parts { blank.parts ≡ L.parts }
    requires some { 0 < blank.parts }
{
    let mut steps = Steps::<L>::open(blank);
    value.rewrite(alloc, by, &mut steps)
}

fn test_in<R: Rewriting, L: Ledger>(
    alloc: Global,
    test: &Test,
    by: &R,
    blank: Blank,
) -> Result<Test, ExprFault>
    requires name { blank.name ≡ L.name }
    requires parts { blank.parts ≡ L.parts }
    requires some { 0 < blank.parts }
{
    let mut steps = Steps::<L>::open(blank);
    test.rewrite(alloc, by, &mut steps)
}

fn rewritten_value<R: Rewriting>(alloc: Global, value: &Expr, by: &R) -> Result<Expr, ExprFault> {
    value_in::<R, Brand>(alloc, value, by, Blank::new(1))
}

fn rewritten_test<R: Rewriting>(
    alloc: Global,
    test: &Option<Test>,
    by: &R,
) -> Result<Option<Test>, ExprFault> {
    match test {
        None => Ok(None),
        Some(test) => Ok(Some(test_in::<R, Brand>(alloc, test, by, Blank::new(1))?)),
    }
}

/// The instruction with its value and data test rewritten, the value first. A fault is that of the rewriting, or `Depth` where a tree
/// gets too deep.
pub fn rewritten<R: Rewriting>(alloc: Global, insn: &Insn, by: &R) -> Result<Insn, ExprFault> {
    let value = rewritten_value(alloc, &insn.value, by)?;
    let test = rewritten_test(alloc, &insn.test, by)?;
    let copied = insn.copy(alloc)?;
    Ok(Insn {
        value,
        test,
        ..copied
    })
}
