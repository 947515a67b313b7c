//! The uses of rules in trees, each with the count of its arguments.
ghost use Rattle.std.specs.Prelude.{◌≡◌, ◌++◌, IfOk, OnOk};
ghost use Rattle.kernel_ir.specs.Mentions.{calls, listed, listed_in, listed_in_test};
ghost use Rattle.subst_rules.specs.Uses.{calls_in_insn, calls_of};

use affine_rows::Listed;
use expr_tree::{Expr, Node, Test};
use kernel_ir::{Insn, SubstRule};
use std::alloc::{AllocError, Global};

/// Those in each rule's body.
pub(crate) fn calls_of(
    alloc: Global,
    rules: &[SubstRule],
) -> Result<Listed<Listed<(u32, usize)>>, AllocError>
    ensures { IfOk result (λ bodies. bodies ≡ calls_of rules.now) }
{
    let mut bodies = Listed::new(alloc);
    for rule in rules {
        bodies.push(calls_in_body(alloc, rule)?)?;
    }
    Ok(bodies)
}

fn calls_in_body(alloc: Global, rule: &SubstRule) -> Result<Listed<(u32, usize)>, AllocError>
    ensures { IfOk result (λ cs. cs ≡ listed calls rule.now.body) }
{
    let mut found = Listed::new(alloc);
    push_from_expr(&rule.body, &mut found)?;
    Ok(found)
}

/// Those in an instruction: value before predicate.
pub(crate) fn calls_in_insn(alloc: Global, insn: &Insn) -> Result<Listed<(u32, usize)>, AllocError>
    ensures { IfOk result (λ cs. cs ≡ calls_in_insn insn.now) }
{
    let mut found = Listed::new(alloc);
    push_from_expr(&insn.value, &mut found)?;
    push_from_option(&insn.test, &mut found)?;
    Ok(found)
}

fn push_from_option(test: &Option<Test>, found: &mut Listed<(u32, usize)>) -> Result<(), AllocError>
    ensures { OnOk result (found.new ≡ found.old ++ listed_in calls test.now) }
{
    match test {
        None => Ok(()),
        Some(test) => push_from_test(test, found),
    }
}

#[cycle(calls)]
fn push_from_expr(expr: &Expr, found: &mut Listed<(u32, usize)>) -> Result<(), AllocError>
    ensures { OnOk result (found.new ≡ found.old ++ listed calls expr.now) }
{
    match expr.node() {
        Node::Literal(_) | Node::Leaf(_) | Node::Read(_, _) => Ok(()),
        Node::Call(used, arguments) => found.push((*used, arguments.len())),
        Node::Neg(a)
        | Node::Inv(a)
        | Node::Shl(a, _)
        | Node::Shr(a, _)
        | Node::Cast(_, a)
        | Node::Fold(_, _, a) => push_from_expr(a, found),
        Node::Bin(_, a, b) => {
            push_from_expr(a, found)?;
            push_from_expr(b, found)
        }
        Node::Pick(test, a, b) => {
            push_from_test(test, found)?;
            push_from_expr(a, found)?;
            push_from_expr(b, found)
        }
    }
}

#[cycle(calls)]
fn push_from_test(test: &Test, found: &mut Listed<(u32, usize)>) -> Result<(), AllocError>
    ensures { OnOk result (found.new ≡ found.old ++ listed_in_test calls test.now) }
{
    match test {
        Test::Words(_, a, b) => {
            push_from_expr(a, found)?;
            push_from_expr(b, found)
        }
        Test::Index(_, _, _) => Ok(()),
        Test::All(p, q) | Test::Any(p, q) => {
            push_from_test(p.get(), found)?;
            push_from_test(q.get(), found)
        }
        Test::Not(p) => push_from_test(p.get(), found),
    }
}
