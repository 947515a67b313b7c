//! Uses of rules with another count of arguments than the rule has parameters.
ghost use Rattle.std.specs.Prelude.{◌≡◌, IfOk};
ghost use Rattle.kernel_ir.specs.Refusals.{Refuses};
ghost use Rattle.kernel_limits.specs.Asked.{first_in};
ghost use Rattle.subst_rules.specs.Refused.{use_refusal};
ghost use Rattle.kernel_kinds.specs.Calls.{calls_in_insn};
ghost use Rattle.kernel_kinds.specs.Refused.{arity_refusal, insn_refusal};

use crate::calls::add_insn_calls;
use affine_rows::Listed;
use kernel_ir::{Fault, Kernel, SubstRule};
use std::alloc::{AllocError, Global};
use subst_rules::check_uses;
use untyped_parts::InsnTree;

/// Rule 8 of bodies, in order and without a line.
fn check_bodies(
    alloc: Global,
    rules: &[SubstRule],
    bodies: &[Listed<(u32, usize)>],
) -> Result<(), Fault>
    ensures { Refuses (first_in (first_in (use_refusal rules.now 0)) bodies.now) result }
{
    for body in bodies {
        check_uses(alloc, rules, 0, body.as_slice())?;
    }
    Ok(())
}

fn calls_in_insn(alloc: Global, insn: &InsnTree) -> Result<Listed<(u32, usize)>, AllocError>
    ensures { IfOk result (λ cs. cs ≡ calls_in_insn insn.now) }
{
    let mut found = Listed::new(alloc);
    add_insn_calls(insn, &mut found)?;
    Ok(found)
}

fn check_insn(alloc: Global, kernel: &Kernel, insn: &InsnTree) -> Result<(), Fault>
    ensures { Refuses (insn_refusal kernel.now insn.now) result }
{
    let calls = calls_in_insn(alloc, insn)?;
    check_uses(alloc, kernel.rules.as_slice(), insn.line, calls.as_slice())
}

/// Rule 8 of instructions, in order and at their lines.
fn check_insns(alloc: Global, kernel: &Kernel, insns: &[InsnTree]) -> Result<(), Fault>
    ensures { Refuses (first_in (insn_refusal kernel.now) insns.now) result }
{
    for insn in insns {
        check_insn(alloc, kernel, insn)?;
    }
    Ok(())
}

/// Rule 8: the uses in bodies of rules in order, then instructions in order, of each the value before the data test.
pub(crate) fn check_arities(
    alloc: Global,
    kernel: &Kernel,
    bodies: &[Listed<(u32, usize)>],
    insns: &[InsnTree],
) -> Result<(), Fault>
    ensures { Refuses (arity_refusal kernel.now bodies.now insns.now) result }
{
    check_bodies(alloc, kernel.rules.as_slice(), bodies)?;
    check_insns(alloc, kernel, insns)
}
