//! Rules that reach themselves.
ghost use Rattle.std.specs.Prelude.{◌≡◌, map, IfOk};
ghost use Rattle.subst_rules.specs.Refused.{RefusesAs, rule_cycle};
ghost use Rattle.kernel_kinds.specs.Calls.{rules_in};
ghost use Rattle.kernel_kinds.specs.Refused.{IsCycleRefusal};

use affine_rows::{Listed, Name};
use kernel_ir::{Fault, Kernel, Refusal, Site};
use std::alloc::{AllocError, Global};
use subst_rules::reaches_itself;

/// Rule 7 keeps the rule.
fn rule_cycle(alloc: Global, kernel: &Kernel, rule: usize) -> Result<Refusal, AllocError>
    ensures { IfOk result (λ r. r ≡ rule_cycle kernel.now rule) }
{
    let refusal = Refusal::of_rule(alloc, Site::Kernel, 7);
    match kernel.rules.get(rule) {
        None => refusal.with_name(alloc, &Name::from_str(alloc, "")?),
        Some(rule) => refusal.with_name(alloc, &rule.name),
    }
}

/// Rule 7: the first rule in declared order that reaches itself.
pub(crate) fn check_cycles(
    alloc: Global,
    kernel: &Kernel,
    bodies: &[Listed<(u32, usize)>],
) -> Result<(), Fault>
    ensures { RefusesAs (IsCycleRefusal kernel.now (map rules_in bodies.now)) result }
{
    for rule in 0..bodies.len() {
        let cyclic = reaches_itself(alloc, bodies, rule)?;
        if cyclic {
            return Err(Fault::Rule(rule_cycle(alloc, kernel, rule)?));
        }
    }
    Ok(())
}
