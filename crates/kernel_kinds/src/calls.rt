//! The uses of rules in trees, each with the count of its arguments.
ghost use Rattle.std.specs.Prelude.{◌≡◌, ◌++◌, flat_map, length, IfOk, OnOk};
ghost use Rattle.kernel_kinds.specs.Calls.{calls, calls_in, calls_in_insn, calls_of, rules_in};
ghost use Rattle.kernel_kinds.specs.Tables.{uses_among, within};

use affine_rows::Listed;
use std::alloc::{AllocError, Global};
use untyped::{Term, Untyped};
use untyped_parts::{InsnTree, RuleTree};

/// Adds the uses in the expression, in the order of the text.
#[cycle(calls)]
fn add_calls(tree: &Untyped, found: &mut Listed<(u32, usize)>) -> Result<(), AllocError>
    ensures { OnOk result (found.new ≡ found.old ++ calls tree.now) }
{
    match tree.term() {
        Term::Index(_, _) | Term::Literal(_) | Term::Read(_, _) => Ok(()),
        Term::Use(rule, arguments) => found.push((*rule, arguments.len())),
        Term::Prefix(_, a)
        | Term::ShiftLeft(a, _)
        | Term::ShiftRight(a, _)
        | Term::Cast(_, a)
        | Term::Fold(_, _, a) => add_calls(a, found),
        Term::Infix(_, a, b) => {
            add_calls(a, found)?;
            add_calls(b, found)
        }
        Term::Choose(test, a, b) => {
            add_calls(test, found)?;
            add_calls(a, found)?;
            add_calls(b, found)
        }
    }
}

fn add_option_calls(
    tree: &Option<Untyped>,
    found: &mut Listed<(u32, usize)>,
) -> Result<(), AllocError>
    ensures { OnOk result (found.new ≡ found.old ++ calls_in tree.now) }
{
    match tree {
        None => Ok(()),
        Some(tree) => add_calls(tree, found),
    }
}

/// Adds the uses in the instruction: value before data test.
pub(crate) fn add_insn_calls(
    insn: &InsnTree,
    found: &mut Listed<(u32, usize)>,
) -> Result<(), AllocError>
    ensures { OnOk result (found.new ≡ found.old ++ calls_in_insn insn.now) }
{
    add_calls(&insn.value, found)?;
    add_option_calls(&insn.test, found)
}

/// The uses in the instructions, in order.
pub(crate) fn calls_in_insns(
    alloc: Global,
    insns: &[InsnTree],
) -> Result<Listed<(u32, usize)>, AllocError>
    ensures { IfOk result (λ cs. cs ≡ flat_map calls_in_insn insns.now) }
{
    let mut found = Listed::new(alloc);
    for insn in insns {
        add_insn_calls(insn, &mut found)?;
    }
    Ok(found)
}

fn calls_in_body(alloc: Global, rule: &RuleTree) -> Result<Listed<(u32, usize)>, AllocError>
    ensures { IfOk result (λ cs. cs ≡ calls rule.now.body) }
{
    let mut found = Listed::new(alloc);
    add_calls(&rule.body, &mut found)?;
    Ok(found)
}

/// Those in each rule's body.
pub(crate) fn calls_of(
    alloc: Global,
    rules: &[RuleTree],
) -> Result<Listed<Listed<(u32, usize)>>, AllocError>
    ensures { IfOk result (λ bodies. bodies ≡ calls_of rules.now) }
{
    let mut bodies = Listed::new(alloc);
    for rule in rules {
        bodies.push(calls_in_body(alloc, rule)?)?;
    }
    Ok(bodies)
}

/// The rules that are used, of the first so many.
pub(crate) fn rules_within(
    alloc: Global,
    calls: &[(u32, usize)],
    count: usize,
) -> Result<Listed<u32>, AllocError>
    ensures { IfOk result (λ rules. rules ≡ within count (rules_in calls.now)) }
{
    let mut rules = Listed::new(alloc);
    for call in calls {
        if (call.0 as usize) < count {
            rules.push(call.0)?;
        }
    }
    Ok(rules)
}

fn body_uses(alloc: Global, rule: &RuleTree, count: usize) -> Result<Listed<u32>, AllocError>
    ensures { IfOk result (λ rules. rules ≡ within count (rules_in (calls rule.now.body))) }
{
    let calls = calls_in_body(alloc, rule)?;
    rules_within(alloc, calls.as_slice(), count)
}

/// The rules that each rule uses, of those that there are.
pub(crate) fn uses_among(
    alloc: Global,
    rules: &[RuleTree],
) -> Result<Listed<Listed<u32>>, AllocError>
    ensures { IfOk result (λ uses. uses ≡ uses_among rules.now) }
{
    let mut uses = Listed::new(alloc);
    for rule in rules {
        uses.push(body_uses(alloc, rule, rules.len())?)?;
    }
    Ok(uses)
}
