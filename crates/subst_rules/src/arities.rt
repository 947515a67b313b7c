//! Uses of rules with another count of arguments than the rule has parameters.
ghost use Rattle.std.specs.Prelude.{◌≡◌, [], ◌∷◌, pos, length, slice_get, IfOk};
ghost use Rattle.kernel_ir.specs.Refusals.{Refuses};
ghost use Rattle.kernel_ir.specs.Valid.{params_of};
ghost use Rattle.subst_rules.specs.Uses.{calls_of};
ghost use Rattle.kernel_limits.specs.Asked.{first_in};
ghost use Rattle.subst_rules.specs.Refused.{arity, arity_refusal, bodies_refusal, insn_refusal, name_of_rule, use_refusal};

use crate::calls::calls_in_insn;
use affine_rows::{Listed, Name};
use kernel_ir::{Fault, Insn, Kernel, Refusal, Site, SubstRule};
use std::alloc::{AllocError, Global};

/// Rule 8: bodies of rules in order, then instructions in order, of each the value before the predicate.
pub(crate) fn check_arities(
    alloc: Global,
    kernel: &Kernel,
    bodies: &[Listed<(u32, usize)>],
) -> Result<(), Fault>
    requires { bodies.now ≡ calls_of kernel.now.rules }
    ensures { Refuses (arity_refusal kernel.now) result }
{
    check_bodies(alloc, kernel.rules.as_slice(), bodies)?;
    check_insns(alloc, kernel.rules.as_slice(), kernel.insns.as_slice())
}

fn check_bodies(
    alloc: Global,
    rules: &[SubstRule],
    bodies: &[Listed<(u32, usize)>],
) -> Result<(), Fault>
    requires { bodies.now ≡ calls_of rules.now }
    ensures { Refuses (bodies_refusal rules.now) result }
{
    for body in bodies {
        check_uses(alloc, rules, 0, body.as_slice())?;
    }
    Ok(())
}

fn check_insns(alloc: Global, rules: &[SubstRule], insns: &[Insn]) -> Result<(), Fault>
    ensures { Refuses (first_in (insn_refusal rules.now) insns.now) result }
{
    for insn in insns {
        check_insn(alloc, rules, insn)?;
    }
    Ok(())
}

fn check_insn(alloc: Global, rules: &[SubstRule], insn: &Insn) -> Result<(), Fault>
    ensures { Refuses (insn_refusal rules.now insn.now) result }
{
    let uses = calls_in_insn(alloc, insn)?;
    check_uses(alloc, rules, insn.line, uses.as_slice())
}

/// Rule 8, at a line: the first of these uses, each a rule and the count of its arguments, of which the count is not that of
/// the rule's parameters. The only other error is want of memory.
pub fn check_uses(
    alloc: Global,
    rules: &[SubstRule],
    line: u32,
    uses: &[(u32, usize)],
) -> Result<(), Fault>
    ensures { Refuses (first_in (use_refusal rules.now line) uses.now) result }
{
    for used in uses {
        check_use(alloc, rules, line, *used)?;
    }
    Ok(())
}

fn check_use(alloc: Global, rules: &[SubstRule], line: u32, used: (u32, usize)) -> Result<(), Fault>
    ensures { Refuses (use_refusal rules.now line used) result }
{
    if used.1 == param_count(rules, used.0) {
        return Ok(());
    }
    Err(Fault::Rule(arity(alloc, rules, line, used)?))
}

/// Rule 8 keeps the rule, how many arguments are given, and how many are wanted.
fn arity(
    alloc: Global,
    rules: &[SubstRule],
    line: u32,
    used: (u32, usize),
) -> Result<Refusal, AllocError>
    ensures { IfOk result (λ r. r ≡ arity rules.now line used) }
{
    let name = name_of(alloc, rules, used.0 as usize)?;
    let wanted = param_count(rules, used.0);
    let refusal = Refusal::of_rule(alloc, Site::Kernel, 8).with_name(alloc, &name)?;
    let refusal = refusal.with_number(used.1 as i128)?;
    Ok(refusal.with_number(wanted as i128)?.at_line(line))
}

/// How many parameters the rule has.
fn param_count(rules: &[SubstRule], rule: u32) -> usize
    ensures { result ≡ length (params_of (slice_get rules.now rule)) }
{
    match rules.get(rule as usize) {
        None => 0,
        Some(rule) => rule.params.len(),
    }
}

/// The rule's name.
pub(crate) fn name_of(alloc: Global, rules: &[SubstRule], rule: usize) -> Result<Name, AllocError>
    ensures { IfOk result (λ n. n ≡ name_of_rule (slice_get rules.now rule)) }
{
    match rules.get(rule) {
        None => Name::from_str(alloc, ""),
        Some(rule) => rule.name.copy(alloc),
    }
}
