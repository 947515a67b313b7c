//! The uses of one rule, with their arguments.
ghost use Rattle.std.specs.Prelude.{◌≡◌, ◌++◌, IfOk, OnOk};
ghost use Rattle.std.specs.Result.{IfErr};
ghost use Rattle.kernel_ir.specs.Mentions.{listed, listed_in, listed_in_test};
ghost use Rattle.kernel_ir.specs.declared.fault.Fault.TheVariants.{OutOfMemory};
ghost use Rattle.subst_rules.specs.Uses.{uses_in, uses_in_insn, uses_of};

use affine_rows::{Form, Listed, Name, copy_forms};
use expr_tree::{Expr, Node, Test};
use kernel_ir::{Fault, Insn, Kernel};
use std::alloc::{AllocError, Global};

/// The uses of a rule in instructions, each with the id of its instruction, in the order of the text: instructions in
/// order, of each the value before the predicate. `OutOfMemory` alone is answered.
pub fn collect_uses(
    alloc: Global,
    kernel: &Kernel,
    rule: u32,
) -> Result<Listed<(Name, Listed<Form>)>, Fault>
    ensures uses { IfOk result (λ us. us ≡ uses_in kernel.now rule) }
    ensures err { IfErr result (λ fault. fault ≡ OutOfMemory) }
{
    let mut uses = Listed::new(alloc);
    for insn in kernel.insns.as_slice() {
        push_from_insn(alloc, insn, rule, &mut uses)?;
    }
    Ok(uses)
}

fn push_from_insn(
    alloc: Global,
    insn: &Insn,
    rule: u32,
    uses: &mut Listed<(Name, Listed<Form>)>,
) -> Result<(), AllocError>
    ensures { OnOk result (uses.new ≡ uses.old ++ uses_in_insn rule insn.now) }
{
    push_from_expr(alloc, &insn.value, rule, &insn.id, uses)?;
    push_from_option(alloc, &insn.test, rule, &insn.id, uses)
}

fn push_from_option(
    alloc: Global,
    test: &Option<Test>,
    rule: u32,
    id: &Name,
    uses: &mut Listed<(Name, Listed<Form>)>,
) -> Result<(), AllocError>
    ensures { OnOk result (uses.new ≡ uses.old ++ listed_in (uses_of id.now rule) test.now) }
{
    match test {
        None => Ok(()),
        Some(test) => push_from_test(alloc, test, rule, id, uses),
    }
}

#[cycle(uses)]
fn push_from_expr(
    alloc: Global,
    expr: &Expr,
    rule: u32,
    id: &Name,
    uses: &mut Listed<(Name, Listed<Form>)>,
) -> Result<(), AllocError>
    ensures { OnOk result (uses.new ≡ uses.old ++ listed (uses_of id.now rule) expr.now) }
{
    match expr.node() {
        Node::Literal(_) | Node::Leaf(_) | Node::Read(_, _) => Ok(()),
        Node::Call(used, arguments) => {
            if *used == rule {
                uses.push((id.copy(alloc)?, copy_forms(alloc, arguments.as_slice())?))?;
            }
            Ok(())
        }
        Node::Neg(a)
        | Node::Inv(a)
        | Node::Shl(a, _)
        | Node::Shr(a, _)
        | Node::Cast(_, a)
        | Node::Fold(_, _, a) => push_from_expr(alloc, a, rule, id, uses),
        Node::Bin(_, a, b) => {
            push_from_expr(alloc, a, rule, id, uses)?;
            push_from_expr(alloc, b, rule, id, uses)
        }
        Node::Pick(test, a, b) => {
            push_from_test(alloc, test, rule, id, uses)?;
            push_from_expr(alloc, a, rule, id, uses)?;
            push_from_expr(alloc, b, rule, id, uses)
        }
    }
}

#[cycle(uses)]
fn push_from_test(
    alloc: Global,
    test: &Test,
    rule: u32,
    id: &Name,
    uses: &mut Listed<(Name, Listed<Form>)>,
) -> Result<(), AllocError>
    ensures { OnOk result (uses.new ≡ uses.old ++ listed_in_test (uses_of id.now rule) test.now) }
{
    match test {
        Test::Words(_, a, b) => {
            push_from_expr(alloc, a, rule, id, uses)?;
            push_from_expr(alloc, b, rule, id, uses)
        }
        Test::Index(_, _, _) => Ok(()),
        Test::All(p, q) | Test::Any(p, q) => {
            push_from_test(alloc, p.get(), rule, id, uses)?;
            push_from_test(alloc, q.get(), rule, id, uses)
        }
        Test::Not(p) => push_from_test(alloc, p.get(), rule, id, uses),
    }
}
