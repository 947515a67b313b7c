//! Kernels with all uses of rules replaced.
ghost use Rattle.std.specs.Prelude.{◌≡◌, map, length, true, Some, None, IfOk, OnOk};
ghost use Rattle.kernel_ir.specs.Limits.{value_of};
ghost use Rattle.kernel_ir.specs.Expanded.{expanded_test};
ghost use Rattle.kernel_ir.specs.Refusals.{IsFault, Refuses};
ghost use Rattle.subst_rules.specs.Replaced.{refusal_to};
ghost use Rattle.kernel_limits.specs.Asked.{IsSized, expanded_insn, first_in};
ghost use Rattle.subst_rules.specs.Kernels.{expanded_kernel};
ghost use Rattle.subst_rules.specs.Ready.{IsExpandable};
ghost use Rattle.subst_rules.specs.Sizes.{sizes_of};
ghost use Rattle.subst_rules.specs.Uses.{calls_of};
ghost use Rattle.subst_rules.specs.Refused.{IsCycleOrLimit, IsExpansionRefusal, RefusesAs, body_refusal, form_limit, insn_limit, limit_refusal, size_refusal, test_fault};

use crate::arities::check_arities;
use crate::calls::calls_of;
use crate::cycles::check_cycles;
use crate::limits::{check_bodies, check_insn, limit_at};
use crate::rounds::{expanded, expanded_test};
use crate::sizes::{Size, sizes_of};
use affine_rows::Listed;
use expr_tree::{Expr, ExprFault, Test};
use kernel_ir::{Fault, Insn, Kernel};
use kernel_limits::check_limits;
use std::alloc::{AllocError, Global};

/// The kernel with each use of a rule in its instructions replaced by the rule's body at the arguments, and without
/// rules. It is refused by rule 8 where a use has another count of arguments than the rule has parameters (bodies of
/// rules in order, then instructions in order, of each the value before the predicate); else by rule 7 where a rule
/// reaches itself, of which the first in declared order is kept; else by rule 3 where the expanded body of a rule is
/// too deep, or, instructions in order, where an expanded value or predicate is too deep, where the expanded instruction
/// has too many nodes, or where a form that is collected on the way passes its limit, or else where the expanded kernel
/// passes another limit, as by `check_limits`. Sizes are worked out before a tree is built.
pub fn expand(alloc: Global, kernel: &Kernel) -> Result<Kernel, Fault>
    ensures tree { IfOk result (λ k. k ≡ expanded_kernel kernel.now) }
    ensures refused { RefusesAs (IsExpansionRefusal kernel.now) result }
    ensures ready { OnOk result (IsExpandable kernel.now) }
{
    let bodies = calls_of(alloc, kernel.rules.as_slice())?;
    check_arities(alloc, kernel, bodies.as_slice())?;
    without_cycle(alloc, kernel, bodies.as_slice())
}

/// The expanded kernel, where all uses have the counts of arguments that are wanted.
fn without_cycle(
    alloc: Global,
    kernel: &Kernel,
    bodies: &[Listed<(u32, usize)>],
) -> Result<Kernel, Fault>
    requires { bodies.now ≡ calls_of kernel.now.rules }
    ensures tree { IfOk result (λ k. k ≡ expanded_kernel kernel.now) }
    ensures refused { RefusesAs (IsCycleOrLimit kernel.now) result }
    ensures sized { OnOk result (IsSized kernel.now) }
{
    check_cycles(alloc, kernel, bodies)?;
    within_limits(alloc, kernel)
}

/// The expanded kernel, where no rule reaches itself.
fn within_limits(alloc: Global, kernel: &Kernel) -> Result<Kernel, Fault>
    ensures tree { IfOk result (λ k. k ≡ expanded_kernel kernel.now) }
    ensures refused { Refuses (limit_refusal kernel.now) result }
    ensures sized { OnOk result (IsSized kernel.now) }
{
    let sizes = sizes_of(alloc, kernel.rules.as_slice())?;
    check_depths(alloc, kernel, sizes.as_slice())?;
    let insns = expanded_insns(alloc, kernel, sizes.as_slice())?;
    let expanded = with_insns(alloc, kernel, insns)?;
    check_limits(alloc, kernel, &expanded)?;
    Ok(expanded)
}

/// Whether no expanded body is too deep.
fn check_depths(alloc: Global, kernel: &Kernel, sizes: &[Size]) -> Result<(), Fault>
    requires { sizes.now ≡ sizes_of kernel.now.rules }
    ensures { Refuses (first_in (body_refusal kernel.now) kernel.now.rules) result }
{
    check_bodies(alloc, kernel.rules.as_slice(), sizes)
}

/// Whether the expanded instruction is within the limits of depth and nodes.
fn check_size(alloc: Global, kernel: &Kernel, sizes: &[Size], insn: &Insn) -> Result<(), Fault>
    requires { sizes.now ≡ sizes_of kernel.now.rules }
    ensures { Refuses (size_refusal kernel.now insn.now) result }
{
    check_insn(alloc, insn, sizes)
}

/// The kernel with these instructions and without rules.
fn with_insns(alloc: Global, kernel: &Kernel, insns: Listed<Insn>) -> Result<Kernel, Fault>
    requires { insns ≡ map (expanded_insn kernel.now) kernel.now.insns }
    ensures tree { IfOk result (λ k. k ≡ expanded_kernel kernel.now) }
    ensures refused { Refuses None result }
{
    let copied = kernel.copy(alloc)?;
    Ok(Kernel {
        rules: Listed::new(alloc),
        insns,
        ..copied
    })
}

fn expanded_insns(alloc: Global, kernel: &Kernel, sizes: &[Size]) -> Result<Listed<Insn>, Fault>
    requires { sizes.now ≡ sizes_of kernel.now.rules }
    ensures insns { IfOk result (λ insns. insns ≡ map (expanded_insn kernel.now) kernel.now.insns) }
    ensures refused { Refuses (first_in (insn_limit kernel.now) kernel.now.insns) result }
{
    let mut made = Listed::new(alloc);
    for insn in kernel.insns.as_slice() {
        match expanded_insn(alloc, kernel, sizes, insn) {
            Ok(insn) => made.push(insn)?,
            Err(fault) => return Err(fault),
        }
    }
    Ok(made)
}

fn expanded_insn(alloc: Global, kernel: &Kernel, sizes: &[Size], insn: &Insn) -> Result<Insn, Fault>
    requires { sizes.now ≡ sizes_of kernel.now.rules }
    ensures insn { IfOk result (λ made. made ≡ expanded_insn kernel.now insn.now) }
    ensures refused { Refuses (insn_limit kernel.now insn.now) result }
{
    check_size(alloc, kernel, sizes, insn)?;
    let value = expanded_value(alloc, kernel, insn)?;
    let test = expanded_option(alloc, kernel, &insn.test, insn.line)?;
    Ok(with_trees(alloc, insn, value, test)?)
}

fn expanded_value(alloc: Global, kernel: &Kernel, insn: &Insn) -> Result<Expr, Fault>
    ensures tree { IfOk result (λ e. e ≡ value_of kernel.now insn.now) }
    ensures refused { Refuses (form_limit insn.now.line (refusal_to kernel.now.rules (length kernel.now.rules) insn.now.value)) result }
{
    match expanded(alloc, kernel, &insn.value) {
        Ok(value) => Ok(value),
        Err(fault) => Err(fault_of(alloc, insn.line, fault)),
    }
}

fn expanded_option(
    alloc: Global,
    kernel: &Kernel,
    test: &Option<Test>,
    line: u32,
) -> Result<Option<Test>, Fault>
    ensures test { IfOk result (λ t. t ≡ expanded_test kernel.now test.now) }
    ensures refused { Refuses (form_limit line (test_fault kernel.now test.now)) result }
{
    match test {
        None => Ok(None),
        Some(test) => match expanded_test(alloc, kernel, test) {
            Ok(test) => Ok(Some(test)),
            Err(fault) => Err(fault_of(alloc, line, fault)),
        },
    }
}

/// The fault of a form at a line. Depths are compared before trees are made, so the fault of a tree that is too deep
/// does not come.
fn fault_of(alloc: Global, line: u32, fault: ExprFault) -> Fault
    ensures { IsFault (form_limit line (Some fault)) result }
{
    match fault {
        ExprFault::Limit => match limit_at(alloc, line, "form", 4611686018427387904) {
            Ok(refusal) => Fault::Rule(refusal),
            Err(_) => Fault::OutOfMemory,
        },
        ExprFault::OutOfMemory | ExprFault::Depth => Fault::OutOfMemory,
    }
}

/// The instruction with another value and predicate.
fn with_trees(
    alloc: Global,
    insn: &Insn,
    value: Expr,
    test: Option<Test>,
) -> Result<Insn, AllocError>
    ensures { IfOk result (λ made. made ≡ record insn.now { value = value; test = test }) }
{
    let copied = insn.copy(alloc)?;
    Ok(Insn {
        value,
        test,
        ..copied
    })
}
